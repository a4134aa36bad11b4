use std::alloc::{AllocError, AllocFailed};

/// Why a text can't be read as a value.
#[derive(Clone, Copy, Debug, PartialEq, Eq)]
pub enum ValueFault {
    /// The offset of the first byte that fits no value, or the text's length if it ends too early.
    /// An entry that doesn't ascend, the 257th entry, a text of more than 64 bytes, and a number that
    /// is out of range, has a leading zero or is `-0` are reported at their first byte.
    Unexpected(usize),
    /// Out of memory.
    NoMemory,
}

impl From<AllocError> for ValueFault {
    ghost use Rattle.std.specs.Prelude.{◌≡◌};
    ghost use Rattle.ql_value.specs.declared.fault.ValueFault.TheVariants.{NoMemory};

    ghost from_gives = { λ _ e. e ≡ NoMemory };

    fn from(_error: AllocError) -> ValueFault {
        ValueFault::NoMemory
    }
}

impl<T: Drop> From<AllocFailed<T>> for ValueFault {
    ghost use Rattle.std.specs.Prelude.{◌≡◌};
    ghost use Rattle.ql_value.specs.declared.fault.ValueFault.TheVariants.{NoMemory};

    ghost from_gives = { λ _ e. e ≡ NoMemory };

    fn from(_error: AllocFailed<T>) -> ValueFault {
        ValueFault::NoMemory
    }
}
