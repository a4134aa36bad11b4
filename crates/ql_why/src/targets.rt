// The targets of a classified program, each with its level and with countermodels of the lower ones.
ghost use Rattle.std.specs.Prelude.{◌≡◌, ◌<◌, ◌++◌, Some, IfOk, OnOk, OnErr, length, slice_get};
ghost use Rattle.ql_classify.specs.Targets.{goals_at, goals_below, targets};
ghost use Rattle.ql_classify.specs.Least.{AreLevelsOf};
ghost use Rattle.ql_ground.specs.OfPrograms.{IsGoalOf};
ghost use Rattle.ql_typing.specs.Operations.{all_ops};
ghost use Rattle.ql_why.specs.Why.{Appended, InTurn, IsStepText, ReportsTarget, why_op_line, target_line, why_txn_line};

use crate::counter_text::push_countermodel;
use crate::goals::{goal_of, lower_goal};
use ql_base::{DeclId, NoMemory, OpId, push_bytes};
use ql_classify::Classified;
use ql_ground::Goal;
use ql_levels::{level_word, txn_word};
use ql_typing::Typed;
use std::alloc::Global;

/// The targets in order.
pub(crate) fn levels_with_reasons(
    alloc: Global,
    classified: &Classified,
) -> Result<Vec<u8>, NoMemory>
    ensures levels { OnOk result (AreLevelsOf classified.now.program classified.now.levels) }
    ensures text { IfOk result
        (λ text. InTurn (ReportsTarget classified.now.program) (goals_at classified.now.levels)
        text.items) }
{
    let typed = classified.typed();
    let levels = classified.levels();
    let mut text = Vec::new(alloc);
    for target in 0..typed.ops() + typed.txns() {
        let goal = goal_of(typed, levels, target);
        push_target(alloc, &mut text, classified, target, goal)?;
    }
    Ok(text)
}

// A target's line, and a countermodel for each level below its own.
fn push_target(
    alloc: Global,
    out: &mut Vec<u8>,
    classified: &Classified,
    target: u32,
    g: Goal,
) -> Result<(), NoMemory>
    requires target { target < targets classified.now.program }
    requires at { slice_get (goals_at classified.now.levels) target ≡ Some g }
    requires known { IsGoalOf classified.now.program g }
    ensures { OnOk result
        (Appended (ReportsTarget classified.now.program g) out.old.items out.new.items) }
{
    push_target_line(out, classified.typed(), g)?;
    push_step(alloc, out, classified, target, g, 0)?;
    push_step(alloc, out, classified, target, g, 1)?;
    push_step(alloc, out, classified, target, g, 2)
}

/// Appends the line that `classify` prints of a target. Out of memory, the text is as before.
pub fn push_target_line(out: &mut Vec<u8>, t: &Typed, g: Goal) -> Result<(), NoMemory>
    requires { IsGoalOf t.now.program g }
    ensures ok { OnOk result (out.new.items ≡ out.old.items ++ target_line t.now.program g) }
    ensures err { OnErr result (out.new.items ≡ out.old.items) }
{
    let mut line = Vec::new(*out.allocator());
    push_line(&mut line, t, g)?;
    push_bytes(out, &line)
}

fn push_line(out: &mut Vec<u8>, t: &Typed, g: Goal) -> Result<(), NoMemory>
    requires { IsGoalOf t.now.program g }
    ensures { OnOk result (out.new.items ≡ out.old.items ++ target_line t.now.program g) }
{
    match g {
        Goal::OpAt(o, level) => push_op(out, t, o, level_word(level)),
        Goal::TxnAt(d, level) => push_txn(out, t, d, txn_word(level)),
    }
}

fn push_op(out: &mut Vec<u8>, t: &Typed, o: OpId, level: &str) -> Result<(), NoMemory>
    requires { o.0 < length (all_ops t.now.program.types) }
    ensures { OnOk result
        (out.new.items ≡ out.old.items ++ why_op_line t.now.program o.0 level.now) }
{
    push_bytes(out, b"op ")?;
    push_bytes(out, t.op(o).name.word.bytes())?;
    push_bytes(out, b" ")?;
    push_bytes(out, level.as_bytes())?;
    push_bytes(out, b"\n")
}

fn push_txn(out: &mut Vec<u8>, t: &Typed, d: DeclId, level: &str) -> Result<(), NoMemory>
    requires { d.0 < length t.now.program.txns }
    ensures { OnOk result
        (out.new.items ≡ out.old.items ++ why_txn_line t.now.program d.0 level.now) }
{
    push_bytes(out, b"txn ")?;
    push_bytes(out, t.txn(d).name.word.bytes())?;
    push_bytes(out, b" ")?;
    push_bytes(out, level.as_bytes())?;
    push_bytes(out, b"\n")
}

// The countermodel at a step below a target's level, where there is one.
fn push_step(
    alloc: Global,
    out: &mut Vec<u8>,
    classified: &Classified,
    target: u32,
    g: Goal,
    step: u32,
) -> Result<(), NoMemory>
    requires target { target < targets classified.now.program }
    requires at { slice_get (goals_at classified.now.levels) target ≡ Some g }
    requires known { IsGoalOf classified.now.program g }
    ensures { OnOk result
        (Appended (IsStepText classified.now.program (slice_get (goals_below g) step)) out.old.items
        out.new.items) }
{
    match classified.lower(target, step) {
        Some(assignment) => push_countermodel(
            alloc,
            out,
            classified.typed(),
            lower_goal(g, step),
            assignment,
        ),
        None => Ok(()),
    }
}
