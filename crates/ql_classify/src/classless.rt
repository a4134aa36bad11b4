use ql_base::{DeclId, OpId};
use ql_cnf::Assignment;
use std::alloc::{AllocError, AllocFailed};

/// Why a program isn't accepted: the first thing that fails.
#[derive(Drop)]
pub enum Classless {
    /// No level is enough for the contract of the target: the number of an operation, or that of a declared
    /// transaction counted after all operations. The assignment satisfies the ground problem at the top level.
    NoLevel { target: u32, assignment: Assignment },
    /// The transaction uses the operation, whose least level is strong.
    StrongInTxn { txn: DeclId, op: OpId },
    NoMemory,
}

impl From<ql_base::NoMemory> for Classless {
    ghost use Rattle.std.specs.Prelude.{◌≡◌};
    ghost use Rattle.ql_classify.specs.declared.classless.Classless.TheVariants.{NoMemory};

    ghost from_gives = { λ _ e. e ≡ NoMemory };

    fn from(_error: ql_base::NoMemory) -> Classless {
        Classless::NoMemory
    }
}

impl From<AllocError> for Classless {
    ghost use Rattle.std.specs.Prelude.{◌≡◌};
    ghost use Rattle.ql_classify.specs.declared.classless.Classless.TheVariants.{NoMemory};

    ghost from_gives = { λ _ e. e ≡ NoMemory };

    fn from(_error: AllocError) -> Classless {
        Classless::NoMemory
    }
}

impl<T: Drop> From<AllocFailed<T>> for Classless {
    ghost use Rattle.std.specs.Prelude.{◌≡◌};
    ghost use Rattle.ql_classify.specs.declared.classless.Classless.TheVariants.{NoMemory};

    ghost from_gives = { λ _ e. e ≡ NoMemory };

    fn from(_error: AllocFailed<T>) -> Classless {
        Classless::NoMemory
    }
}
