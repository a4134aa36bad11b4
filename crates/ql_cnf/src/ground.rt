use crate::Lit;

/// A formula over literals.
#[derive(Drop)]
pub enum Ground {
    True,
    Leaf(Lit),
    And(Box<Ground>, Box<Ground>),
    Or(Box<Ground>, Box<Ground>),
    Implies(Box<Ground>, Box<Ground>),
}
