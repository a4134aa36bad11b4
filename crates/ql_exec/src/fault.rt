use ql_base::{EffId, NoMemory};
use std::alloc::{AllocError, AllocFailed};

/// Why a draft can't be the next effect of an execution. The id is the one that it would have.
#[derive(Clone, Copy)]
pub enum ExecFault {
    /// It sees an id that names no earlier effect.
    NotForward(EffId),
    /// It sees an effect on another object.
    OtherObject(EffId),
    /// It is in a begun transaction that has effects, and one of them is of another session or
    /// under another declared name, or the session's last effect isn't one of them.
    SplitTxn(EffId),
    NoMemory,
}

impl From<AllocError> for ExecFault {
    ghost use Rattle.std.specs.Prelude.{◌≡◌};
    ghost use Rattle.ql_exec.specs.declared.fault.ExecFault.TheVariants.{NoMemory};

    ghost from_gives = { λ _ fault. fault ≡ NoMemory };

    fn from(_error: AllocError) -> ExecFault {
        ExecFault::NoMemory
    }
}

impl<T: Drop> From<AllocFailed<T>> for ExecFault {
    ghost use Rattle.std.specs.Prelude.{◌≡◌};
    ghost use Rattle.ql_exec.specs.declared.fault.ExecFault.TheVariants.{NoMemory};

    ghost from_gives = { λ _ fault. fault ≡ NoMemory };

    fn from(_failed: AllocFailed<T>) -> ExecFault {
        ExecFault::NoMemory
    }
}

impl From<NoMemory> for ExecFault {
    ghost use Rattle.std.specs.Prelude.{◌≡◌};
    ghost use Rattle.ql_exec.specs.declared.fault.ExecFault.TheVariants.{NoMemory};

    ghost from_gives = { λ _ fault. fault ≡ NoMemory };

    fn from(_error: ql_base::NoMemory) -> ExecFault {
        ExecFault::NoMemory
    }
}
