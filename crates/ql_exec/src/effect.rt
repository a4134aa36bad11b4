ghost use Rattle.std.specs.Prelude.{◌≡◌};
ghost use Rattle.ql_exec.specs.Effects.{in_run};
ghost use Rattle.ql_exec.specs.Relations.{same_run};

use ql_base::{DeclId, IdSet, ObjId, OpId, RunId, SessId};
use ql_value::{Value, Values};

/// Whether an effect was made in a transaction.
#[derive(Clone, Copy)]
pub enum Member {
    /// It was made outside any transaction.
    Alone,
    /// It was made in a begun transaction, which was declared under a name.
    Inside(RunId, DeclId),
}

impl Member {
    /// Whether it is in this begun transaction.
    pub fn is_in(self, run: RunId) -> bool
        ensures { result ≡ in_run run.0 self }
    {
        match self {
            Member::Alone => false,
            Member::Inside(other, _) => other.0 == run.0,
        }
    }

    /// Whether both are in one begun transaction.
    pub fn is_with(self, other: Member) -> bool
        ensures { result ≡ same_run self other }
    {
        match other {
            Member::Alone => false,
            Member::Inside(run, _) => self.is_in(run),
        }
    }
}

/// What an effect carries to the calls that see it.
#[derive(Drop)]
pub enum Payload {
    /// It changes nothing.
    Nothing,
    /// The values that its operation emitted.
    Emitted(Values),
}

/// What one call of an operation left in the execution.
pub struct Effect {
    pub object: ObjId,
    pub op: OpId,
    pub args: Values,
    pub payload: Payload,
    pub answer: Value,
    pub session: SessId,
    pub member: Member,
    /// The Lamport stamp: one more than the greatest stamp among the seen effects and those before
    /// it in its session, and 1 if there are none.
    pub stamp: u32,
    /// The effects that the call saw.
    pub seen: IdSet,
}

// Written out, so that a crate above proves one call for it.
impl Drop for Effect {
    fn drop(self) {
        let Effect {
            object: _,
            op: _,
            args: _,
            payload: _,
            answer: _,
            session: _,
            member: _,
            stamp: _,
            seen: _,
        } = self;
    }
}

/// An effect that isn't in an execution yet, and has no stamp.
#[derive(Drop)]
pub struct Draft {
    pub object: ObjId,
    pub op: OpId,
    pub args: Values,
    pub payload: Payload,
    pub answer: Value,
    pub session: SessId,
    pub member: Member,
    pub seen: IdSet,
}
