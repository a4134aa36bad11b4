// The sections of a certificate, each checked against the ground problem of its own target.
ghost use Rattle.std.specs.Prelude.{◌≡◌, ◌≤◌, ◌+◌, ◌++◌, ℕ, List, IfOk, OnOk, length, slice_get, Some};
ghost use Rattle.ql_ground.specs.OfPrograms.{IsGoalOf};
ghost use Rattle.ql_reply.specs.Causes.{IsNoFault};
ghost use Rattle.ql_commands.specs.Check.{Reports, goal_of, refusal_end, section_text, target_of, expected_targets, verdict_text};
ghost use Rattle.ql_commands.specs.Judging.{AreExpectedFrom, IsVerdictOn};

use crate::verdicts::refused;
use ql_base::{DeclId, NoMemory, OpId, push_bytes, push_number};
use ql_cert::{Section, SectionLevel};
use ql_ground::{Goal, problem};
use ql_levels::{level_word, txn_word};
use ql_refute::{Refutation, Verdict, check};
use ql_reply::{Cause, Status};
use ql_typing::Typed;
use std::alloc::Global;

/// Appends a line for each section, the first of which has the index `place`, up to the first that is refused.
pub(crate) fn push_sections(
    alloc: Global,
    t: &Typed,
    place: u32,
    sections: &[Section],
    out: &mut Vec<u8>,
) -> Result<(Status, Cause), NoMemory>
    requires expected { AreExpectedFrom t.now.program place sections.now }
    requires few { place + length sections.now ≤ 48 }
    ensures says { IfOk result
        (λ answer. (text : List ℕ) × Reports t.now.program place sections.now answer.0 text
        × (out.new.items ≡ out.old.items ++ text)) }
    ensures no_fault { IfOk result (λ answer. IsNoFault answer.1) }
{
    let Some((section, others)) = sections.split_first() else {
        return Ok((Status::Done, Cause::Text));
    };
    let goal = goal_of(t, place, section);
    let verdict = verdict_on(alloc, t, goal, &section.refutation)?;
    push_section(out, section)?;
    push_verdict(out, verdict)?;
    match verdict {
        Verdict::Accepted => push_sections(alloc, t, place + 1, others, out),
        _ => Ok((
            Status::No,
            Cause::Refused(refused(Some(place + 1), verdict)),
        )),
    }
}

// The goal of the section of an index.
fn goal_of(t: &Typed, place: u32, section: &Section) -> Goal
    requires { slice_get (expected_targets t.now.program) place ≡ Some (target_of section.now) }
    ensures value { result ≡ goal_of t.now.program place section.now }
    ensures goal { IsGoalOf t.now.program result }
{
    match section.level {
        SectionLevel::Op(level) => Goal::OpAt(OpId(place), level),
        SectionLevel::Txn(level) => Goal::TxnAt(DeclId(place - t.ops()), level),
    }
}

// The verdict on a refutation of a goal's ground problem.
fn verdict_on(
    alloc: Global,
    t: &Typed,
    goal: Goal,
    refutation: &Refutation,
) -> Result<Verdict, NoMemory>
    requires goal { IsGoalOf t.now.program goal }
    ensures { IfOk result (IsVerdictOn t.now.program goal refutation.now.lines) }
{
    let clauses = problem(alloc, t, goal)?;
    let mut marks = vec![in alloc; 0; clauses.variables() as usize + 1]?;
    Ok(check(&clauses, refutation, marks.as_mut_slice()))
}

#[tactic(auto, unfolding(ql_cert::specs::CertFile::kind_word, ql_cert::specs::CertFile::level_word))]
fn push_section(out: &mut Vec<u8>, section: &Section) -> Result<(), NoMemory>
    ensures { OnOk result (out.new.items ≡ out.old.items ++ section_text section.now) }
{
    let (kind, level) = match section.level {
        SectionLevel::Op(level) => ("op", level_word(level)),
        SectionLevel::Txn(level) => ("txn", txn_word(level)),
    };
    push_bytes(out, kind.as_bytes())?;
    push_bytes(out, b" ")?;
    push_bytes(out, section.name.bytes())?;
    push_bytes(out, b" ")?;
    push_bytes(out, level.as_bytes())
}

fn push_verdict(out: &mut Vec<u8>, verdict: Verdict) -> Result<(), NoMemory>
    ensures { OnOk result (out.new.items ≡ out.old.items ++ verdict_text verdict) }
{
    match verdict {
        Verdict::Accepted => push_bytes(out, b" accepted\n"),
        Verdict::BadHint(line) => push_refusal(out, line, "BadHint"),
        Verdict::NotUnit(line) => push_refusal(out, line, "NotUnit"),
        Verdict::NoConflict(line) => push_refusal(out, line, "NoConflict"),
        Verdict::BadVariable(line) => push_refusal(out, line, "BadVariable"),
        Verdict::NoEmpty => push_bytes(out, b" refused NoEmpty\n"),
    }
}

fn push_refusal(out: &mut Vec<u8>, line: u64, rule: &str) -> Result<(), NoMemory>
    ensures { OnOk result (out.new.items ≡ out.old.items ++ refusal_end line rule.now) }
{
    push_bytes(out, b" refused ")?;
    push_number(out, line)?;
    push_bytes(out, b" ")?;
    push_bytes(out, rule.as_bytes())?;
    push_bytes(out, b"\n")
}
