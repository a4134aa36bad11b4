ghost use Rattle.std.specs.Prelude.{◌≡◌, ◌<◌, ◌^◌, ◌++◌, ℕ, IfOk, OnOk, codes, length};
ghost use Rattle.ql_classify.specs.Finding.{IsFinding};
ghost use Rattle.ql_why.specs.Why.{Appended};
ghost use Rattle.ql_warnings.specs.Warnings.{AreFindings};
ghost use Rattle.ql_explanation.specs.Explanation.{AreSections, ExplainSays, IsTargetSection};

use crate::answer::answer_of;
use crate::finding::{finding_at, findings};
use crate::sections::{Remarks, goal_of, section};
use crate::uses::uses_of;
use ql_base::{NoMemory, push_bytes};
use ql_classify::Finding;
use ql_commands::{bad_source, read_source};
use ql_reply::{Cause, Reply};
use ql_typing::Typed;
use ql_warnings::{Lexed, warnings};
use std::alloc::Global;

/// What is found of each target of a source, with a countermodel unless the lowest level is enough. The answer is yes where
/// each has a level and no transaction uses a strong operation.
pub fn explain(alloc: Global, source: &[u8]) -> Result<Reply, NoMemory>
    requires { length source.now < 2 ^ 32 }
    ensures { IfOk result (λ reply. ExplainSays source.now reply.status reply.text.items) }
{
    let typed = match read_source(alloc, source) {
        Ok(typed) => typed,
        Err(fault) => return bad_source(alloc, fault),
    };
    let findings = findings(alloc, &typed)?;
    let lexed = Lexed::of(alloc, source)?;
    let text = sections_of(alloc, &lexed, &typed, &findings)?;
    Ok(Reply {
        status: answer_of(&typed, &findings),
        text,
        cause: Cause::Text,
    })
}

// The sections of all targets, with a blank line between them.
fn sections_of(
    alloc: Global,
    lexed: &Lexed,
    t: &Typed,
    findings: &[Finding],
) -> Result<Vec<u8>, NoMemory>
    requires { AreFindings t.now.program findings.now }
    ensures { IfOk result
        (λ text. AreSections lexed.now t.now.program findings.now text.items) }
{
    let mut text = Vec::new(alloc);
    for k in 0..findings.len() {
        let finding = finding_at(findings, k);
        push_gap(&mut text, k)?;
        push_section(alloc, &mut text, lexed, t, findings, finding)?;
    }
    Ok(text)
}

// Appends a blank line, except before the first section.
fn push_gap(text: &mut Vec<u8>, k: usize) -> Result<(), NoMemory>
    ensures first { OnOk result (k ≡ 0 → text.new.items ≡ text.old.items) }
    ensures others { OnOk result (0 < k → text.new.items ≡ text.old.items ++ codes "\n") }
{
    if k == 0 {
        return Ok(());
    }
    push_bytes(text, b"\n")
}

// Appends the section of a target.
fn push_section(
    alloc: Global,
    text: &mut Vec<u8>,
    lexed: &Lexed,
    t: &Typed,
    findings: &[Finding],
    finding: &Finding,
) -> Result<(), NoMemory>
    requires findings { AreFindings t.now.program findings.now }
    requires finding { (target : ℕ) × IsFinding t.now.program target finding.now }
    ensures { OnOk result
        (Appended (IsTargetSection lexed.now t.now.program finding.now) text.old.items text.new.items) }
{
    let goal = goal_of(finding);
    let uses = uses_of(alloc, t, findings, goal)?;
    let warned = warnings(alloc, lexed, t, goal)?;
    let remarks = Remarks {
        uses: &uses,
        warned: &warned,
    };
    let section = section(alloc, t, findings, finding, goal, remarks)?;
    push_bytes(text, &section)
}
