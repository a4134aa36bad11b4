// The execution of the blocks.
ghost use Rattle.std.specs.Prelude.{◌≡◌, ◌<◌, ◌≤◌, length, IfOk};
ghost use Rattle.std.specs.List.{All};
ghost use Rattle.ql_atoms.specs.Atoms.{size_of};
ghost use Rattle.ql_counter.specs.Built.{built};
ghost use Rattle.ql_exec.specs.Execution.{IsExecution};
ghost use Rattle.ql_counter.specs.Assigned.{pattern_of};
ghost use Rattle.ql_counter.specs.Coded.{members_by};

use crate::drafts::drafts;
use crate::slot::Slot;
use ql_atoms::Shape;
use ql_base::{DeclId, NoMemory};
use ql_exec::{ExecFault, Execution};
use std::alloc::Global;

/// The execution of all blocks, whose effects form one.
pub(crate) fn execution(
    alloc: Global,
    a: &[bool],
    s: Shape,
    declared: Option<DeclId>,
    slots: &[Slot],
) -> Result<Execution, NoMemory>
    requires blocks { All (λ t. t.block < s.constants) slots.now }
    requires few { length slots.now ≤ 24 }
    requires lawful { IsExecution
        (built (pattern_of a.now (size_of s) (members_by a.now (size_of s) declared))
        slots.now) }
    ensures { IfOk result
        (λ x. x ≡ built (pattern_of a.now (size_of s) (members_by a.now (size_of s) declared))
        slots.now) }
{
    let drafts = drafts(alloc, a, s, declared, slots)?;
    match Execution::from_effects(alloc, drafts) {
        Ok(execution) => Ok(execution),
        Err(ExecFault::NoMemory) => Err(NoMemory),
        Err(ExecFault::NotForward(_)) => unreachable!(),
        Err(ExecFault::OtherObject(_)) => unreachable!(),
        Err(ExecFault::SplitTxn(_)) => unreachable!(),
    }
}
