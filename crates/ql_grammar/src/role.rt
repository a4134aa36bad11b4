/// What a token does to the counts of the expression or contract that it stands in.
#[derive(Clone, Copy)]
pub enum Role {
    /// Nothing.
    Plain,
    /// It makes this many nodes.
    Makes(usize),
    /// It opens a bracket and makes this many nodes.
    Opens(usize),
    /// It closes a bracket.
    Closes,
    /// It stands before a new expression or contract.
    Before,
}
