/// An operation of a program, numbered from 0 over all its types.
#[derive(Clone, Copy, PartialEq, Eq)]
pub struct OpId(pub u32);

/// A replicated type, numbered from 0.
#[derive(Clone, Copy, PartialEq, Eq)]
pub struct TypeId(pub u32);

/// An object, numbered from 0.
#[derive(Clone, Copy, PartialEq, Eq)]
pub struct ObjId(pub u32);

/// A session, numbered from 0.
#[derive(Clone, Copy, PartialEq, Eq)]
pub struct SessId(pub u32);

/// A declared transaction, numbered from 0.
#[derive(Clone, Copy, PartialEq, Eq)]
pub struct DeclId(pub u32);

/// A begun transaction, numbered from 1.
#[derive(Clone, Copy, PartialEq, Eq)]
pub struct RunId(pub u32);

/// An effect of an execution, numbered from 1.
#[derive(Clone, Copy, PartialEq, Eq)]
pub struct EffId(pub u32);

/// A message, numbered from 1.
#[derive(Clone, Copy, PartialEq, Eq)]
pub struct MsgId(pub u32);

/// A replica, numbered from 0.
#[derive(Clone, Copy, PartialEq, Eq)]
pub struct ReplicaId(pub u32);
