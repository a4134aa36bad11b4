// The goals of a target: at its own level, at a lower one, and at the highest.
ghost use Rattle.std.specs.Prelude.{◌≡◌, ◌<◌, Some, length, slice_get};
ghost use Rattle.ql_classify.specs.Targets.{goals_at, goals_below, step_level, step_txn_level, targets};
ghost use Rattle.ql_ground.specs.OfPrograms.{IsGoalOf};
ghost use Rattle.ql_ground.specs.declared.goal.Goal.{Goal};
ghost use Rattle.ql_lang.specs.declared.program.Program.{Program};
ghost use Rattle.ql_classify.specs.Least.{highest};
ghost use Rattle.ql_typing.specs.Operations.{all_ops};

use ql_base::{DeclId, OpId};
use ql_ground::Goal;
use ql_levels::{Level, Levels, TxnLevel};
use ql_typing::Typed;

/// A target at its level.
pub(crate) fn goal_of(t: &Typed, levels: &Levels, target: u32) -> Goal
    requires ops { length levels.now.ops ≡ length (all_ops t.now.program.types) }
    requires txns { length levels.now.txns ≡ length t.now.program.txns }
    requires target { target < targets t.now.program }
    ensures at { slice_get (goals_at levels.now) target ≡ Some result }
    ensures known { IsGoalOf t.now.program result }
{
    if target < t.ops() {
        let o = OpId(target);
        Goal::OpAt(o, levels.op(o))
    } else {
        let d = DeclId(target - t.ops());
        Goal::TxnAt(d, levels.txn(d))
    }
}

/// A goal at a level below its own. The step is the level's index, 0 for the lowest.
pub(crate) fn lower_goal(g: Goal, step: u32) -> Goal
    ensures below { (lower : Goal) → slice_get (goals_below g) step ≡ Some lower → result ≡ lower }
    ensures known { (p : Program) → IsGoalOf p g → IsGoalOf p result }
{
    match g {
        Goal::OpAt(o, _) => Goal::OpAt(o, level_at(step)),
        Goal::TxnAt(d, _) => Goal::TxnAt(d, txn_level_at(step)),
    }
}

// The level of an index, and that of transactions.
fn level_at(step: u32) -> Level
    ensures { result ≡ step_level step }
{
    match step {
        0 => Level::Eventual,
        1 => Level::Causal,
        2 => Level::Wide,
        _ => Level::Strong,
    }
}

fn txn_level_at(step: u32) -> TxnLevel
    ensures { result ≡ step_txn_level step }
{
    match step {
        0 => TxnLevel::Rc,
        1 => TxnLevel::Mav,
        _ => TxnLevel::Rr,
    }
}

/// A target at the highest level.
pub(crate) fn highest(t: &Typed, target: u32) -> Goal
    ensures { result ≡ highest t.now.program target }
{
    if target < t.ops() {
        Goal::OpAt(OpId(target), Level::Strong)
    } else {
        Goal::TxnAt(DeclId(target - t.ops()), TxnLevel::Rr)
    }
}
