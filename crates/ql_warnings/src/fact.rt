use ql_base::EffId;
use ql_lang::RelName;

/// A statement about one effect of an execution, or about two.
#[derive(Clone, Copy, PartialEq, Eq)]
pub enum Claim {
    /// The first is related to the second.
    Related(RelName, EffId, EffId),
    /// The effect is in the transaction for which the contract is judged.
    Inside(EffId),
    /// They are one effect, or two of one begun transaction.
    OneTxn(EffId, EffId),
}

/// Whether a claim holds.
#[derive(Clone, Copy, PartialEq, Eq)]
pub struct Fact {
    pub claim: Claim,
    pub holds: bool,
}
