use ql_base::{IdSet, ReplicaId};

/// A message from one replica to another.
pub struct Message {
    pub sender: ReplicaId,
    pub receiver: ReplicaId,
    /// The effects that it carries: one outside any transaction, or all of one transaction.
    pub carried: IdSet,
    /// How many copies of it are in flight.
    pub copies: u32,
}

// Written out, so that a crate above proves one call for it.
impl Drop for Message {
    fn drop(self) {
        let Message {
            sender: _,
            receiver: _,
            carried: _,
            copies: _,
        } = self;
    }
}
