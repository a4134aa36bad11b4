use std::alloc::{AllocError, AllocFailed};

/// What is wrong with a line.
#[derive(Clone, Copy)]
pub enum DrawnRule {
    /// It doesn't have the form of its kind of line.
    Unexpected,
    /// An effect sees one that isn't earlier.
    NotForward,
    /// It is the 4,001st effect, reply or event, has the 1,025th object, or joins a 17th replica.
    TooMany,
    /// A schedule has no replicas, or more than 16.
    Range,
}

/// Why a file can't be drawn.
#[derive(Clone, Copy)]
pub enum DrawnFault {
    /// The first faulty line, counted from 1. Where a file ends too early, the line after its last one.
    Bad { line: u64, rule: DrawnRule },
    /// Out of memory.
    NoMemory,
}

/// Why a line can't be drawn.
#[derive(Clone, Copy)]
pub(crate) enum LineFault {
    Breaks(DrawnRule),
    NoMemory,
}

impl LineFault {
    /// The fault of the file, at this line.
    pub(crate) fn at(self, line: u64) -> DrawnFault {
        match self {
            LineFault::Breaks(rule) => DrawnFault::Bad { line, rule },
            LineFault::NoMemory => DrawnFault::NoMemory,
        }
    }
}

impl From<ql_base::NoMemory> for LineFault {
    fn from(_error: ql_base::NoMemory) -> LineFault {
        LineFault::NoMemory
    }
}

impl From<AllocError> for LineFault {
    fn from(_error: AllocError) -> LineFault {
        LineFault::NoMemory
    }
}

impl<T: Drop> From<AllocFailed<T>> for LineFault {
    fn from(_error: AllocFailed<T>) -> LineFault {
        LineFault::NoMemory
    }
}
