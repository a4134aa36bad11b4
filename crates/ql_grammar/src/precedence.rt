/// The precedence of the operators of expressions, the most binding first.
#[derive(Clone, Copy)]
pub enum Precedence {
    Product,
    Sum,
    Comparison,
    Conjunction,
    Disjunction,
}
