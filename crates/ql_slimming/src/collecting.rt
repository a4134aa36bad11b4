ghost use Rattle.std.specs.Prelude.{◌≡◌, cond, OnOk};
ghost use Rattle.ql_base.specs.IdLists.{with_id};

use ql_base::{IdSet, NoMemory};

/// Adds an id to a set, where it passes a test.
pub(crate) fn include_if(ids: &mut IdSet, id: u32, passes: bool) -> Result<(), NoMemory>
    ensures { OnOk result (ids.new ≡ cond passes (with_id ids.old id) ids.old) }
{
    if passes {
        ids.insert(id)?;
    }
    Ok(())
}
