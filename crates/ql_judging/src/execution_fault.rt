// What is said of a file that reports no execution.
ghost use Rattle.std.specs.Prelude.{◌≡◌, IfOk, Some};
ghost use Rattle.ql_reply.specs.declared.status.Status.TheVariants.{Bad};
ghost use Rattle.ql_judging.specs.Verify.{execution_fault_text};

use ql_base::NoMemory;
use ql_execution_files::ReportFault;
use ql_reply::{Part, Reply, Rule};
use std::alloc::Global;

/// The answer on an execution's file with a fault.
pub(crate) fn bad_execution(alloc: Global, fault: ReportFault) -> Result<Reply, NoMemory>
    ensures status { IfOk result (λ reply. reply.status ≡ Bad) }
    ensures text { IfOk result (λ reply. execution_fault_text fault ≡ Some reply.text.items) }
{
    match fault {
        ReportFault::Unexpected(line) => Reply::bad(alloc, Part::Execution, line, Rule::Unexpected),
        ReportFault::Unknown(line) => Reply::bad(alloc, Part::Execution, line, Rule::Unknown),
        ReportFault::Mixed(line) => Reply::bad(alloc, Part::Execution, line, Rule::Mixed),
        ReportFault::Stamp(line) => Reply::bad(alloc, Part::Execution, line, Rule::Stamp),
        ReportFault::NotForward(line) => Reply::bad(alloc, Part::Execution, line, Rule::NotForward),
        ReportFault::OtherObject(line) => Reply::bad(
            alloc,
            Part::Execution,
            line,
            Rule::OtherObject,
        ),
        ReportFault::SplitTxn(line) => Reply::bad(alloc, Part::Execution, line, Rule::SplitTxn),
        ReportFault::TooMany(line) => Reply::bad(alloc, Part::Execution, line, Rule::TooMany),
        ReportFault::NoMemory => Err(NoMemory),
    }
}
