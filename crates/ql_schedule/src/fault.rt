ghost use Rattle.std.specs.Prelude.{◌≡◌};
ghost use Rattle.ql_schedule.specs.Outcomes.{fault_of};

use crate::rules::SchedRule;
use ql_lines::{Broken, FileFault};

/// Why a text isn't a schedule of a program, with the number of the first faulty line, from 1. If the file
/// ends before its events, that is the line after its last. If a line has several faults, the first in this
/// order is reported.
#[derive(Clone, Copy)]
pub enum SchedFault {
    /// The line isn't in the grammar.
    Unexpected(u64),
    /// A name isn't declared.
    Unknown(u64),
    /// An operation is of another type than its object, or has arguments of another count or kind.
    Kind(u64),
    /// A replica, a session, a group or a number is out of range.
    Range(u64),
    /// One object, event, object of a transaction, or replica more than the limit.
    TooMany(u64),
    /// A name is declared twice, or listed twice.
    Twice(u64),
    /// Out of memory.
    NoMemory,
}

/// The public form of a fault.
pub(crate) fn fault_of(fault: FileFault<SchedRule>) -> SchedFault
    ensures { result ≡ fault_of fault }
{
    match fault {
        FileFault::Broken(Broken { line, rule }) => rule.at(line),
        FileFault::NoMemory => SchedFault::NoMemory,
    }
}
