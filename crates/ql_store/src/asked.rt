use ql_base::{ObjId, OpId, ReplicaId, SessId};
use ql_value::Values;

/// A call of an operation on an object, by a session at a replica.
#[derive(Drop)]
pub(crate) struct Asked {
    pub session: SessId,
    pub replica: ReplicaId,
    pub object: ObjId,
    pub op: OpId,
    pub args: Values,
}
