ghost use Rattle.std.specs.Prelude.{◌≡◌};
ghost use Rattle.ql_journal.specs.declared.why.StationWhy.{StationWhy};

use ql_base::NoMemory;
use ql_ports::Failed;
use std::alloc::{AllocError, AllocFailed};

/// Why a station wasn't made, or didn't receive a package.
#[derive(Clone, Copy, Debug, PartialEq, Eq)]
pub enum StationWhy {
    /// The disk failed, and has counted the fault.
    Failed,
    /// An earlier receipt of this station returned `Failed`: it has to be recovered.
    Reopen,
    /// At this offset of the file, in bytes, a gate or a whole record was expected and isn't there.
    Damaged(u64),
    /// The record at this offset, in bytes, isn't a package of committed effects.
    Stranger(u64),
    NoMemory,
}

impl From<Failed> for StationWhy {
    ghost from_gives = { λ _ why. why ≡ StationWhy.Failed };

    fn from(_failed: Failed) -> StationWhy {
        StationWhy::Failed
    }
}

impl From<NoMemory> for StationWhy {
    ghost from_gives = { λ _ why. why ≡ StationWhy.NoMemory };

    fn from(_error: NoMemory) -> StationWhy {
        StationWhy::NoMemory
    }
}

impl From<AllocError> for StationWhy {
    ghost from_gives = { λ _ why. why ≡ StationWhy.NoMemory };

    fn from(_error: AllocError) -> StationWhy {
        StationWhy::NoMemory
    }
}
