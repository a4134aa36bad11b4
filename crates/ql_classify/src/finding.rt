// What is found for one target, whatever is found for the others.
ghost use Rattle.std.specs.Prelude.{◌<◌, ◌+◌, ◌≤◌, IfOk, length};
ghost use Rattle.std.specs.List.{AllZip};
ghost use Rattle.ql_ground.specs.declared.goal.Goal.TheVariants.{OpAt, TxnAt};
ghost use Rattle.ql_lang.specs.declared.program.Program.{Program};
ghost use Rattle.ql_levels.specs.declared.level.Level.{Level};
ghost use Rattle.ql_levels.specs.declared.level.TxnLevel.{TxnLevel};
ghost use Rattle.ql_typing.specs.Operations.{all_ops};
ghost use Rattle.ql_classify.specs.Finding.{IsFinding, IsLastUnmet};
ghost use Rattle.ql_counter.specs.Countermodels.{IsSatisfiedBy};
ghost use Rattle.ql_classify.specs.Targets.{goals_below, targets};

use crate::classless::Classless;
use crate::evidence::{find_level, find_txn_level, level_above, txn_level_above};
use ql_base::{DeclId, NoMemory, OpId};
use ql_cnf::Assignment;
use ql_ground::Goal;
use ql_levels::{Level, TxnLevel};
use ql_typing::Typed;
use std::alloc::Global;

/// A goal whose level isn't enough, with an assignment that satisfies its ground problem.
pub struct Unmet {
    pub goal: Goal,
    pub assignment: Assignment,
}

// Written out, so that a crate above proves one call for it.
impl Drop for Unmet {
    fn drop(self) {
        let Unmet {
            goal: _,
            assignment: _,
        } = self;
    }
}

/// What is found for a target.
#[derive(Drop)]
pub enum Finding {
    /// The target at its least level, and at the next lower one, if there is one.
    Least { goal: Goal, below: Option<Unmet> },
    /// The target at the highest level, which isn't enough.
    NoLevel(Unmet),
}

/// The least level of a target, or that none is enough. The target is the number of an operation, or that of a declared
/// transaction counted after all operations. What is found for other targets doesn't matter, nor which operations a
/// transaction uses.
pub fn find_target(alloc: Global, t: &Typed, target: u32) -> Result<Finding, NoMemory>
    requires target { target < targets t.now.program }
    ensures { IfOk result (IsFinding t.now.program target) }
{
    if target < t.ops() {
        find_op(alloc, t, OpId(target))
    } else {
        let d = target - t.ops();
        prove!(d < t.txns());
        find_txn(alloc, t, DeclId(d))
    }
}

fn find_op(alloc: Global, t: &Typed, o: OpId) -> Result<Finding, NoMemory>
    requires op { o.0 < length (all_ops t.now.program.types) }
    ensures { IfOk result (IsFinding t.now.program o.0) }
{
    match find_level(alloc, t, o) {
        Ok((level, evidence)) => Ok(Finding::Least {
            goal: Goal::OpAt(o, level),
            below: last_of_op(o, evidence.lower),
        }),
        Err(Classless::NoLevel { assignment, .. }) => Ok(Finding::NoLevel(Unmet {
            goal: Goal::OpAt(o, Level::Strong),
            assignment,
        })),
        Err(Classless::NoMemory) => Err(NoMemory),
        Err(Classless::StrongInTxn { .. }) => unreachable!(),
    }
}

// An operation at the highest of its lower levels; these are the assignments of the lower levels.
fn last_of_op(o: OpId, mut lower: Vec<Assignment>) -> Option<Unmet>
    ensures { (p : Program) (level : Level)
        → AllZip (IsSatisfiedBy p) (goals_below (OpAt o level)) lower.items
        → IsLastUnmet p (goals_below (OpAt o level)) result }
{
    let assignment = lower.pop()?;
    Some(Unmet {
        goal: Goal::OpAt(o, level_above(&lower)),
        assignment,
    })
}

fn find_txn(alloc: Global, t: &Typed, d: DeclId) -> Result<Finding, NoMemory>
    requires txn { d.0 < length t.now.program.txns }
    requires few { length t.now.program.txns ≤ 16 }
    ensures { IfOk result (IsFinding t.now.program (length (all_ops t.now.program.types) + d.0)) }
{
    match find_txn_level(alloc, t, d) {
        Ok((level, evidence)) => Ok(Finding::Least {
            goal: Goal::TxnAt(d, level),
            below: last_of_txn(d, evidence.lower),
        }),
        Err(Classless::NoLevel { assignment, .. }) => Ok(Finding::NoLevel(Unmet {
            goal: Goal::TxnAt(d, TxnLevel::Rr),
            assignment,
        })),
        Err(Classless::NoMemory) => Err(NoMemory),
        Err(Classless::StrongInTxn { .. }) => unreachable!(),
    }
}

// The same for a transaction.
fn last_of_txn(d: DeclId, mut lower: Vec<Assignment>) -> Option<Unmet>
    ensures { (p : Program) (level : TxnLevel)
        → AllZip (IsSatisfiedBy p) (goals_below (TxnAt d level)) lower.items
        → IsLastUnmet p (goals_below (TxnAt d level)) result }
{
    let assignment = lower.pop()?;
    Some(Unmet {
        goal: Goal::TxnAt(d, txn_level_above(&lower)),
        assignment,
    })
}
