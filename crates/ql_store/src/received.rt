ghost use Rattle.std.specs.Prelude.{IfOk};
ghost use Rattle.ql_machine.specs.Sets.{AreThose};
ghost use Rattle.ql_store.specs.Received.{IsReceivedOf};

use ql_base::{EffId, IdSet, NoMemory};
use ql_holder::Holder;
use std::alloc::Global;

/// Which of the first `count` effects a holder has received. Asks it for each.
pub(crate) fn received_effects<H: Holder>(
    alloc: Global,
    holder: &H,
    count: u32,
) -> Result<IdSet, NoMemory>
    ensures { IfOk result (AreThose (IsReceivedOf (H.received holder.now) count)) }
{
    let mut ids = IdSet::new(alloc);
    for k in 0..count {
        if holder.has(EffId(k + 1)) {
            ids.insert(k + 1)?;
        }
    }
    Ok(ids)
}
