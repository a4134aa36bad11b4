ghost use Rattle.std.specs.Prelude.{◌≡◌, ◌<◌, ◌++◌, ◌^◌, ℕ, IfOk, OnOk, length, map};
ghost use Rattle.std.specs.List.{concat};
ghost use Rattle.ql_classify.specs.Finding.{IsFinding};
ghost use Rattle.ql_warnings.specs.Warnings.{AreFindings};
ghost use Rattle.ql_baseline.specs.Comparison.{BaselineSays, IsComparison, rise_of};

use crate::format::Format;
use crate::rises::push_rise_at;
use crate::stored::Stored;
use ql_base::NoMemory;
use ql_classify::Finding;
use ql_commands::{bad_source, read_source};
use ql_explanation::{finding_at, findings, goal_of};
use ql_lines::{FileFault, read_file};
use ql_reply::{Cause, Part, Reply, Rule, Status};
use ql_typing::Typed;
use std::alloc::Global;

/// The targets of a source whose levels are higher than in a stored answer, a line for each. The answer is yes where there
/// are none.
pub fn compare(alloc: Global, source: &[u8], baseline: &[u8]) -> Result<Reply, NoMemory>
    requires { length source.now < 2 ^ 32 }
    ensures { IfOk result (λ reply. BaselineSays source.now baseline.now reply.status reply.text.items) }
{
    let typed = match read_source(alloc, source) {
        Ok(typed) => typed,
        Err(fault) => return bad_source(alloc, fault),
    };
    match read_file(&Format { alloc }, baseline) {
        Ok(stored) => against(alloc, &typed, stored.items()),
        Err(FileFault::Broken(fault)) => {
            Reply::bad(alloc, Part::Baseline, fault.line, Rule::Unexpected)
        }
        Err(FileFault::NoMemory) => Err(NoMemory),
    }
}

// What became of the levels since this answer was stored.
fn against(alloc: Global, t: &Typed, stored: &[Stored]) -> Result<Reply, NoMemory>
    ensures { IfOk result
        (λ reply. IsComparison t.now.program stored.now reply.status reply.text.items) }
{
    let findings = findings(alloc, t)?;
    let text = rises(alloc, t, stored, &findings)?;
    let status = if text.is_empty() {
        Status::Done
    } else {
        Status::No
    };
    Ok(Reply {
        status,
        text,
        cause: Cause::Text,
    })
}

fn rises(
    alloc: Global,
    t: &Typed,
    stored: &[Stored],
    findings: &[Finding],
) -> Result<Vec<u8>, NoMemory>
    requires { AreFindings t.now.program findings.now }
    ensures { IfOk result
        (λ text. text.items ≡ concat (map (rise_of t.now.program stored.now) findings.now)) }
{
    let mut text = Vec::new(alloc);
    for k in 0..findings.len() {
        push_rise_of(&mut text, t, stored, finding_at(findings, k))?;
    }
    Ok(text)
}

// Appends the line of a target, where its level rose.
fn push_rise_of(
    out: &mut Vec<u8>,
    t: &Typed,
    stored: &[Stored],
    finding: &Finding,
) -> Result<(), NoMemory>
    requires { (target : ℕ) × IsFinding t.now.program target finding.now }
    ensures { OnOk result
        (out.new.items ≡ out.old.items ++ rise_of t.now.program stored.now finding.now) }
{
    let has_level = matches!(finding, Finding::Least { .. });
    push_rise_at(out, t, stored, goal_of(finding), has_level)
}
