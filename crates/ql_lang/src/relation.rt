/// A relation between two effects. `Base` has the source offset of the relation's name, or of the `=` that
/// stands for equality, and 0 in a formula that comes from no source.
#[derive(Drop)]
pub enum Rel {
    Base(RelName, u32),
    Union(Box<Rel>, Box<Rel>),
    Inter(Box<Rel>, Box<Rel>),
}

/// The named relations: visibility, session order, session order on one object, one object, equality,
/// happens-before and happens-before on one object.
#[derive(Clone, Copy, PartialEq, Eq)]
pub enum RelName {
    Vis,
    So,
    Soo,
    SameObj,
    Eq,
    Hb,
    Hbo,
}
