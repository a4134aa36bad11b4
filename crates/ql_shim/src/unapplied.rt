ghost use Rattle.std.specs.Prelude.{List};
ghost use Rattle.ql_base.specs.IdLists.{IsAscending};
ghost use Rattle.ql_exec.specs.declared.effect.Effect.{Effect};
ghost use Rattle.ql_shim.specs.Viewing.{IsFirstUnapplied};

use ql_base::{EffId, IdSet};
use ql_holder::Holder;

/// The least effect that a transaction saw, that is none of its own, and that a holder hasn't applied. Looks up
/// what it saw until one is found.
pub(crate) fn first_unapplied<H: Holder>(holder: &H, saw: &[u32], own: &IdSet) -> Option<EffId>
    requires { IsAscending saw.now }
    ensures { (x : List Effect) → H.fits holder.now x
        → IsFirstUnapplied x (H.received holder.now) saw.now own.now result }
{
    for a in saw {
        if !own.has(*a) && !holder.applied(EffId(*a)) {
            return Some(EffId(*a));
        }
    }
    None
}
