ghost use Rattle.std.specs.Prelude.{◌≡◌, ◌++◌, OnOk};

use ql_base::{EffId, NoMemory, OpId};

/// A position in a source: its offset in bytes from 0, and its line and column from 1, the column in bytes.
#[derive(Clone, Copy, PartialEq, Eq)]
pub struct Place {
    pub at: u32,
    pub line: u32,
    pub column: u32,
}

/// What may be wrong with a target's contract, or with the execution that is shown for it.
#[derive(Clone, Copy, PartialEq, Eq)]
pub enum Warning {
    /// The variable with this index stands for any effect, though its name is this operation's.
    NamedAsOperation { variable: usize, op: OpId },
    /// The `/\` or `\/` here is between two `=>` without brackets.
    Unbracketed(Place),
    /// The contract isn't `true`, and yet it holds in every execution, whatever the level.
    AsksNothing,
    /// The premise holds in no execution: the relation here can't hold together with the others of it.
    NeverApplies(Place),
    /// The relation here, a part of a premise, holds wherever the other parts do.
    Unneeded(Place),
    /// The countermodel that is shown breaks the contract of another operation, which has a level, at this effect.
    RuledOut { op: OpId, at: EffId },
}

// Appends warnings to those found before.
pub(crate) fn push_all(found: &mut Vec<Warning>, more: &[Warning]) -> Result<(), NoMemory>
    ensures { OnOk result (found.new.items ≡ found.old.items ++ more.now) }
{
    found.extend_from_slice(more)?;
    Ok(())
}
