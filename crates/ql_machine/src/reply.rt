use ql_base::{EffId, IdSet, MsgId, ReplicaId, SessId};

/// How a store answers an event.
#[derive(Drop)]
pub enum Reply {
    /// The call made this effect.
    Ok(EffId),
    /// A transaction is open now.
    Begun,
    /// The effects of the transaction are committed.
    Committed(IdSet),
    /// The call can't be answered yet: the least effect that is missing.
    Blocked(EffId),
    /// A strong call can't reach all replicas: the least one that it can't reach.
    Unavailable(ReplicaId),
    /// A strong call is on an object that an open transaction declared: the least session with one.
    Held(SessId),
    /// The message can't pass between two groups of replicas.
    Cut,
    /// No copy of the message is in flight.
    Gone,
    /// The replica had received the message before.
    Again,
    /// The replica has received the message, and not all that it needs: the least effect that it waits for.
    Waits(EffId),
    /// The effects that the replica has applied by this receipt.
    Applies(IdSet),
    /// A copy is lost.
    Lost,
    /// The network has fallen apart.
    Split,
    /// The network is whole.
    Healed,
    /// The replica with this number has joined.
    Joined(ReplicaId),
    /// The message with this number is in flight.
    Sent(MsgId),
    /// The event isn't allowed.
    Refused(Why),
}

/// Why an event isn't allowed.
#[derive(Clone, Copy, PartialEq, Eq)]
pub enum Why {
    /// A transaction begins in a session that has one open.
    AlreadyOpen,
    /// A commit in a session that has no open transaction.
    NotOpen,
    /// A call on an object that the open transaction doesn't declare.
    Undeclared,
    /// A call of an operation that the open transaction doesn't use.
    Unused,
    /// The replica hasn't received the effect that it is to send.
    Absent,
}
