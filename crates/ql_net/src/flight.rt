use ql_base::ReplicaId;

/// Whether a message can be delivered.
#[derive(Clone, Copy, PartialEq, Eq)]
pub enum Flight {
    /// No copy of it is in flight. It may never have been sent.
    Gone,
    /// Its sender and receiver are in different groups.
    Cut,
    /// It goes from the first replica to the second, which are in one group.
    Ready(ReplicaId, ReplicaId),
}
