ghost use Rattle.std.specs.Prelude.{List, IfOk};
ghost use Rattle.ql_exec.specs.declared.effect.Effect.{Effect};
ghost use Rattle.ql_holder.specs.Closed.{Has};
ghost use Rattle.ql_holder.specs.Arrivals.{Applied};
ghost use Rattle.ql_machine.specs.Sets.{AreThose};

use crate::lookup::has_next;
use ql_base::{EffId, IdSet, NoMemory};
use ql_holder::Holder;
use std::alloc::Global;

/// Those of some effects that a holder has applied. Looks up each once.
pub fn applied_among<H: Holder>(
    alloc: Global,
    holder: &H,
    effects: &[u32],
) -> Result<IdSet, NoMemory>
    ensures { IfOk result (λ found. (x : List Effect) → H.fits holder.now x
        → AreThose (λ a. Has effects.now a × Applied x (H.received holder.now) a) found) }
{
    let mut found = IdSet::new(alloc);
    for a in effects {
        if holder.applied(EffId(*a)) {
            found.insert(*a)?;
        }
    }
    Ok(found)
}

/// Those of some effects that are in a set. Looks up each once.
pub(crate) fn kept_among(alloc: Global, set: &IdSet, effects: &[u32]) -> Result<IdSet, NoMemory>
    ensures { IfOk result (λ found. AreThose (λ a. Has effects.now a × Has set.now a) found) }
{
    let mut found = IdSet::new(alloc);
    let mut next = 0;
    for a in effects {
        if has_next(set, &mut next, *a) {
            found.insert(*a)?;
        }
    }
    Ok(found)
}
