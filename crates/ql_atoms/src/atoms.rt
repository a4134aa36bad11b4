use ql_base::OpId;

/// A relation between two effects. Atoms are numbered in the order of these variants.
#[derive(Clone, Copy, PartialEq, Eq)]
pub enum PairKind {
    Eq,
    So,
    SameObj,
    Vis,
    Hbo,
    Hb,
    SameTxn,
}

/// A ground atom. Constants are numbered from 0.
#[derive(Clone, Copy, PartialEq, Eq)]
pub enum Atom {
    /// The relation holds from the first constant to the second.
    Pair(PairKind, u32, u32),
    /// The constant is an effect of the current transaction.
    Current(u32),
    /// The constant is an effect of the operation.
    Is(OpId, u32),
}
