ghost use Rattle.std.specs.Prelude.{◌≡◌, IfOk, Some};
ghost use Rattle.ql_reply.specs.declared.status.Status.TheVariants.{Bad};
ghost use Rattle.ql_commands.specs.Check.{cert_fault_text};

use ql_base::NoMemory;
use ql_cert::CertFault;
use ql_reply::{Part, Reply, Rule};
use std::alloc::Global;

/// The answer on a certificate with a fault.
pub(crate) fn bad_certificate(alloc: Global, fault: CertFault) -> Result<Reply, NoMemory>
    ensures status { IfOk result (λ reply. reply.status ≡ Bad) }
    ensures text { IfOk result (λ reply. cert_fault_text fault ≡ Some reply.text.items) }
{
    match fault {
        CertFault::Unexpected(line) => Reply::bad(alloc, Part::Certificate, line, Rule::Unexpected),
        CertFault::Number(line) => Reply::bad(alloc, Part::Certificate, line, Rule::Number),
        CertFault::NoMemory => Err(NoMemory),
    }
}
