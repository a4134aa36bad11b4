use crate::groups::Groups;
use ql_base::{DeclId, EffId, IdSet, MsgId, ObjId, OpId, ReplicaId, SessId};
use ql_value::Values;

/// An event of a store, one step of a schedule.
#[derive(Drop)]
pub enum Event {
    /// A session calls an operation on an object, at a replica.
    Call {
        session: SessId,
        replica: ReplicaId,
        object: ObjId,
        op: OpId,
        args: Values,
    },
    /// A session begins a declared transaction on these objects, at a replica.
    Begin {
        session: SessId,
        replica: ReplicaId,
        decl: DeclId,
        objects: IdSet,
    },
    /// A session commits its open transaction, at a replica.
    Commit {
        session: SessId,
        replica: ReplicaId,
    },
    /// A copy of a message arrives.
    Deliver(MsgId),
    /// The network makes one more copy of a message.
    Repeat(MsgId),
    /// The network loses a copy of a message.
    Lose(MsgId),
    /// A replica sends another one an effect that it has received, with its transaction.
    Resend {
        effect: EffId,
        from: ReplicaId,
        to: ReplicaId,
    },
    /// The network falls apart into groups.
    Partition(Groups),
    /// The network is whole again.
    Heal,
    /// A replica joins in the group of another one: as a copy of it, or bare, that is, with the
    /// effects of strong operations and all that they need.
    Join {
        near: ReplicaId,
        copy: bool,
    },
}
