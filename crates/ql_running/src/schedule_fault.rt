ghost use Rattle.std.specs.Prelude.{◌≡◌, IfOk, Some};
ghost use Rattle.ql_reply.specs.declared.status.Status.TheVariants.{Bad};
ghost use Rattle.ql_running.specs.ScheduleFaults.{schedule_fault_text};

use ql_base::NoMemory;
use ql_reply::{Part, Reply, Rule};
use ql_schedule::SchedFault;
use std::alloc::Global;

/// The answer on a schedule's file with a fault.
pub(crate) fn bad_schedule(alloc: Global, fault: SchedFault) -> Result<Reply, NoMemory>
    ensures status { IfOk result (λ reply. reply.status ≡ Bad) }
    ensures text { IfOk result (λ reply. schedule_fault_text fault ≡ Some reply.text.items) }
{
    match fault {
        SchedFault::Unexpected(line) => Reply::bad(alloc, Part::Schedule, line, Rule::Unexpected),
        SchedFault::Unknown(line) => Reply::bad(alloc, Part::Schedule, line, Rule::Unknown),
        SchedFault::Kind(line) => Reply::bad(alloc, Part::Schedule, line, Rule::Kind),
        SchedFault::Range(line) => Reply::bad(alloc, Part::Schedule, line, Rule::Range),
        SchedFault::TooMany(line) => Reply::bad(alloc, Part::Schedule, line, Rule::TooMany),
        SchedFault::Twice(line) => Reply::bad(alloc, Part::Schedule, line, Rule::Twice),
        SchedFault::NoMemory => Err(NoMemory),
    }
}
