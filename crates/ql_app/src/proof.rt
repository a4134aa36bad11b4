ghost use Rattle.std.specs.Prelude.{◌≡◌, ◌≢◌, ◌<◌, ◌^◌, IfOk, OnOk, length};
ghost use Rattle.std.specs.Option.{option_map};
ghost use Rattle.ql_reply.specs.declared.status.Status.TheVariants.{Bad};
ghost use Rattle.ql_app.specs.ProofFile.{ProofSays, ProofReports, proof_fault_text, refusal_of};

use crate::text::at_line;
use ql_base::NoMemory;
use ql_cert::{CertFault, parse_proof};
use ql_cnf::Clauses;
use ql_commands::refused;
use ql_refute::{Refutation, Verdict, check};
use ql_reply::{Cause, Part, Reply, Rule, Status};
use std::alloc::Global;

/// Whether the refutation in a proof file shows that no assignment satisfies its clauses.
pub fn check_proof(alloc: Global, bytes: &[u8]) -> Result<Reply, NoMemory>
    requires short { length bytes.now < 2 ^ 32 }
    ensures { IfOk result (λ reply. ProofSays bytes.now reply.status reply.text.items) }
{
    match parse_proof(alloc, bytes) {
        Ok((clauses, refutation)) => verdict_on(alloc, &clauses, &refutation),
        Err(fault) => bad_proof(alloc, fault),
    }
}

// The answer on a file with a fault.
fn bad_proof(alloc: Global, fault: CertFault) -> Result<Reply, NoMemory>
    ensures status { IfOk result (λ reply. reply.status ≡ Bad) }
    ensures text { IfOk result (λ reply. reply.text.items ≡ proof_fault_text fault) }
    ensures known { OnOk result (fault ≢ CertFault.NoMemory) }
{
    match fault {
        CertFault::Unexpected(line) => Reply::bad(alloc, Part::Proof, line, Rule::Unexpected),
        CertFault::Number(line) => Reply::bad(alloc, Part::Proof, line, Rule::Number),
        CertFault::NoMemory => Err(NoMemory),
    }
}

// What the checker says of clauses and a refutation.
fn verdict_on(alloc: Global, clauses: &Clauses, refutation: &Refutation) -> Result<Reply, NoMemory>
    ensures { IfOk result
        (λ reply. ProofReports clauses.now refutation.now.lines reply.status
        reply.text.items) }
{
    let mut marks = vec![in alloc; 0; clauses.variables() as usize + 1]?;
    let verdict = check(clauses, refutation, marks.as_mut_slice());
    match refusal(alloc, verdict)? {
        None => Ok(Reply {
            status: Status::Done,
            text: Vec::from_slice(alloc, b"accepted\n")?,
            cause: Cause::Text,
        }),
        Some(text) => Ok(Reply {
            status: Status::No,
            text,
            cause: Cause::Refused(refused(None, verdict)),
        }),
    }
}

// The line that reports a refusal.
fn refusal(alloc: Global, verdict: Verdict) -> Result<Option<Vec<u8>>, NoMemory>
    ensures { IfOk result (λ line. option_map (λ text. text.items) line ≡ refusal_of verdict) }
{
    let line = match verdict {
        Verdict::Accepted => return Ok(None),
        Verdict::NoEmpty => Vec::from_slice(alloc, b"refused NoEmpty\n")?,
        Verdict::BadHint(line) => at_line(alloc, b"refused ", line, b" BadHint\n")?,
        Verdict::NotUnit(line) => at_line(alloc, b"refused ", line, b" NotUnit\n")?,
        Verdict::NoConflict(line) => at_line(alloc, b"refused ", line, b" NoConflict\n")?,
        Verdict::BadVariable(line) => at_line(alloc, b"refused ", line, b" BadVariable\n")?,
    };
    Ok(Some(line))
}
