use ql_base::IdSet;
use ql_machine::OpenTxn;

/// An open transaction, with what it did.
#[derive(Drop)]
pub struct Running {
    pub txn: OpenTxn,
    /// The effects of its calls.
    pub own: IdSet,
    /// The effects that its calls saw.
    pub saw: IdSet,
}
