ghost use Rattle.std.specs.Prelude.{List, IfOk};
ghost use Rattle.ql_base.specs.declared.ids.ObjId.{ObjId};
ghost use Rattle.ql_holder.specs.Needs.{AreThere};
ghost use Rattle.ql_machine.specs.declared.open_txn.OpenTxn.{OpenTxn};
ghost use Rattle.ql_machine.specs.Sets.{AreThose};
ghost use Rattle.ql_shim.specs.Viewing.{IsAskedOf, IsLeastUnapplied, IsSeen, state_of};

use crate::among::{applied_among, kept_among};
use crate::running::Running;
use crate::scope::with_own;
use crate::unapplied::first_unapplied;
use ql_base::{EffId, IdSet, NoMemory};
use ql_exec::Execution;
use ql_holder::Holder;
use ql_levels::TxnLevel;
use std::alloc::Global;

/// What a call in a transaction sees, and the least effect that is missing.
#[derive(Drop)]
pub struct View {
    pub ids: IdSet,
    pub missing: Option<EffId>,
}

pub(crate) fn view_of<H: Holder>(
    alloc: Global,
    running: &Running,
    level: TxnLevel,
    holder: &H,
    x: &Execution,
    on: &[u32],
) -> Result<View, NoMemory>
    requires fits { H.fits holder.now x.now }
    requires there { AreThere x.now on.now }
    ensures ids { IfOk result
        (λ view. (now : List OpenTxn) (o : ObjId)
        → IsAskedOf now x.now o on.now (H.received holder.now) running.now
        → AreThose (IsSeen (state_of x.now now (H.received holder.now)) running.now.txn level o)
        view.ids) }
    ensures missing { IfOk result
        (λ view. (now : List OpenTxn) (o : ObjId)
        → IsAskedOf now x.now o on.now (H.received holder.now) running.now
        → IsLeastUnapplied (state_of x.now now (H.received holder.now)) running.now.txn level
        (H.received holder.now) view.missing) }
{
    match level {
        TxnLevel::Rc => {
            let others = applied_among(alloc, holder, on)?;
            Ok(View {
                ids: with_own(alloc, x, running, &others, on)?,
                missing: None,
            })
        }
        TxnLevel::Mav => {
            let others = applied_among(alloc, holder, on)?;
            Ok(View {
                ids: with_own(alloc, x, running, &others, on)?,
                missing: first_unapplied(holder, running.saw.items(), &running.own),
            })
        }
        TxnLevel::Rr => {
            let others = kept_among(alloc, &running.txn.snapshot, on)?;
            Ok(View {
                ids: with_own(alloc, x, running, &others, on)?,
                missing: None,
            })
        }
    }
}
