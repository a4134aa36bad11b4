// The section of each target: its line, the strong operations that it uses, and why no lower level is enough.
ghost use Rattle.std.specs.Prelude.{◌≡◌, ◌<◌, ◌++◌, ℕ, IfOk, List, OnOk, length};
ghost use Rattle.std.specs.List.{All};
ghost use Rattle.std.specs.Option.{option_copied};
ghost use Rattle.ql_classify.specs.Finding.{IsFinding, IsUnmet};
ghost use Rattle.ql_ground.specs.OfPrograms.{IsGoalOf};
ghost use Rattle.ql_warnings.specs.Warnings.{AreFindings, AreWarnings};
ghost use Rattle.ql_explanation.specs.Explanation.{AreUsesOf, IsCounterPart, IsReason, IsTargetSection, IsStrongIn, first_line, goal_of_finding, none_line, strong_lines, unmet_of, strong_uses_text, warned_text, ways_out_text};

use crate::words::{LOWEST, counter_words, push_ways_out};
use ql_base::{DeclId, NoMemory, OpId, push_bytes};
use ql_classify::{Finding, Unmet};
use ql_counter::countermodel;
use ql_ground::Goal;
use ql_report::print_strong_use;
use ql_typing::Typed;
use ql_warnings::{Warning, counter_warnings, warning_text};
use ql_why::{push_counter, push_target_line};
use std::alloc::Global;

/// The section of a target, from what is found of it, the strong operations that it uses and the warnings of its contract.
pub(crate) fn section(
    alloc: Global,
    t: &Typed,
    findings: &[Finding],
    finding: &Finding,
    g: Goal,
    remarks: Remarks,
) -> Result<Vec<u8>, NoMemory>
    requires findings { AreFindings t.now.program findings.now }
    requires finding { (target : ℕ) × IsFinding t.now.program target finding.now }
    requires target { g ≡ goal_of_finding finding.now }
    requires known { IsGoalOf t.now.program g }
    requires uses { AreUsesOf t.now.program g remarks.uses.now }
    ensures { IfOk result
        (λ text. (source : List ℕ) → AreWarnings source t.now.program g remarks.entry.warned.now
        → IsTargetSection source t.now.program finding.now text.items) }
{
    let mut text = Vec::new(alloc);
    push_first_line(&mut text, t, finding, g)?;
    push_remarks(alloc, &mut text, t, g, remarks)?;
    let reason = reason(alloc, t, findings, finding)?;
    push_bytes(&mut text, &reason)?;
    Ok(text)
}

/// What is reported about a target besides its level: the strong operations that it uses, and warnings.
#[derive(Clone, Copy)]
pub(crate) struct Remarks<'a> {
    pub(crate) uses: &'a [OpId],
    pub(crate) warned: &'a [Warning],
}

fn push_remarks(
    alloc: Global,
    out: &mut Vec<u8>,
    t: &Typed,
    g: Goal,
    remarks: Remarks,
) -> Result<(), NoMemory>
    requires known { IsGoalOf t.now.program g }
    requires uses { AreUsesOf t.now.program g remarks.uses.now }
    ensures { OnOk result
        (out.new.items ≡ out.old.items
        ++ strong_lines t.now.program g remarks.entry.uses.now
        ++ ways_out_text t.now.program remarks.entry.uses.now
        ++ warned_text t.now.program remarks.entry.warned.now) }
{
    push_uses(alloc, out, t, g, remarks.uses)?;
    push_ways_out(out, t, remarks.uses)?;
    push_warned(alloc, out, t, remarks.warned)
}

// A line for each warning.
fn push_warned(
    alloc: Global,
    out: &mut Vec<u8>,
    t: &Typed,
    warned: &[Warning],
) -> Result<(), NoMemory>
    ensures { OnOk result (out.new.items ≡ out.old.items ++ warned_text t.now.program warned.now) }
{
    let Some((warning, others)) = warned.split_first() else {
        return Ok(());
    };
    let sentence = warning_text(alloc, t, *warning)?;
    push_bytes(out, b"  ")?;
    push_bytes(out, &sentence)?;
    push_bytes(out, b"\n")?;
    push_warned(alloc, out, t, others)
}

/// The target at its least level, or at the highest where none is enough.
pub fn goal_of(finding: &Finding) -> Goal
    ensures { result ≡ goal_of_finding finding.now }
{
    match finding {
        Finding::Least { goal, .. } => *goal,
        Finding::NoLevel(unmet) => unmet.goal,
    }
}

fn push_first_line(out: &mut Vec<u8>, t: &Typed, finding: &Finding, g: Goal) -> Result<(), NoMemory>
    requires known { IsGoalOf t.now.program g }
    requires target { g ≡ goal_of_finding finding.now }
    ensures { OnOk result (out.new.items ≡ out.old.items ++ first_line t.now.program finding.now) }
{
    match finding {
        Finding::Least { .. } => push_target_line(out, t, g),
        Finding::NoLevel(_) => push_none(out, t, g),
    }
}

fn push_none(out: &mut Vec<u8>, t: &Typed, g: Goal) -> Result<(), NoMemory>
    requires { IsGoalOf t.now.program g }
    ensures { OnOk result (out.new.items ≡ out.old.items ++ none_line t.now.program g) }
{
    match g {
        Goal::OpAt(o, _) => {
            push_bytes(out, b"none op ")?;
            push_bytes(out, t.op(o).name.word.bytes())?;
        }
        Goal::TxnAt(d, _) => {
            push_bytes(out, b"none txn ")?;
            push_bytes(out, t.txn(d).name.word.bytes())?;
        }
    }
    push_bytes(out, b"\n")
}

fn push_uses(
    alloc: Global,
    out: &mut Vec<u8>,
    t: &Typed,
    g: Goal,
    uses: &[OpId],
) -> Result<(), NoMemory>
    requires goal { IsGoalOf t.now.program g }
    requires uses { AreUsesOf t.now.program g uses.now }
    ensures { OnOk result (out.new.items ≡ out.old.items ++ strong_lines t.now.program g uses.now) }
{
    match g {
        Goal::OpAt(_, _) => Ok(()),
        Goal::TxnAt(d, _) => push_strong(alloc, out, t, d, uses),
    }
}

// A line for each strong operation that a transaction uses.
fn push_strong(
    alloc: Global,
    out: &mut Vec<u8>,
    t: &Typed,
    d: DeclId,
    uses: &[OpId],
) -> Result<(), NoMemory>
    requires txn { d.0 < length t.now.program.txns }
    requires uses { All (IsStrongIn t.now.program d.0) uses.now }
    ensures { OnOk result (out.new.items ≡ out.old.items ++ strong_uses_text t.now.program d.0 uses.now) }
{
    let Some((o, others)) = uses.split_first() else {
        return Ok(());
    };
    let line = print_strong_use(alloc, t, d, *o)?;
    push_bytes(out, &line)?;
    push_strong(alloc, out, t, d, others)
}

// Why no lower level is enough, or none at all.
fn reason(
    alloc: Global,
    t: &Typed,
    findings: &[Finding],
    finding: &Finding,
) -> Result<Vec<u8>, NoMemory>
    requires findings { AreFindings t.now.program findings.now }
    requires finding { (target : ℕ) × IsFinding t.now.program target finding.now }
    ensures { IfOk result (λ text. IsReason t.now.program finding.now text.items) }
{
    match unmet_of(finding) {
        Some(unmet) => counter_part(
            alloc,
            t,
            findings,
            unmet,
            matches!(finding, Finding::NoLevel(_)),
        ),
        None => Ok(Vec::from_slice(alloc, LOWEST.as_bytes())?),
    }
}

/// The goal that isn't met: the target at the next lower level, or at the highest where none is enough.
pub fn unmet_of(finding: &Finding) -> Option<&Unmet>
    ensures { option_copied result ≡ unmet_of finding.now }
{
    match finding {
        Finding::Least { below, .. } => below.as_ref(),
        Finding::NoLevel(unmet) => Some(unmet),
    }
}

// A countermodel of a goal: in words, and as an execution.
fn counter_part(
    alloc: Global,
    t: &Typed,
    findings: &[Finding],
    unmet: &Unmet,
    is_top: bool,
) -> Result<Vec<u8>, NoMemory>
    requires findings { AreFindings t.now.program findings.now }
    requires goal { IsGoalOf t.now.program unmet.now.goal }
    requires unmet { IsUnmet t.now.program unmet.now }
    ensures { IfOk result (λ text. IsCounterPart t.now.program unmet.now.goal text.items) }
{
    let counter = countermodel(alloc, t, unmet.goal, &unmet.assignment)?;
    let warned = counter_warnings(alloc, t, findings, unmet.goal, &counter)?;
    let mut text = counter_words(alloc, t, unmet.goal, &counter, is_top)?;
    push_warned(alloc, &mut text, t, &warned)?;
    push_bytes(&mut text, b"\n")?;
    push_counter(alloc, &mut text, t, unmet.goal, &counter)?;
    Ok(text)
}
