ghost use Rattle.std.specs.Prelude.{◌≡◌, ◌<◌, List, All, length, map, IfOk, OnErr};
ghost use Rattle.ql_exec.specs.declared.effect.Effect.{Effect};
ghost use Rattle.ql_holder.specs.Needs.{IsPackage};
ghost use Rattle.ql_store.specs.Receipts.{IsReceipt};

use ql_base::{IdSet, NoMemory, ReplicaId};
use ql_exec::Execution;
use ql_holder::{Arrival, Holder};

/// A replica receives a package.
pub(crate) fn receive_at<H: Holder>(
    holders: &mut Vec<H>,
    r: ReplicaId,
    pack: &IdSet,
    x: &Execution,
) -> Result<Arrival, NoMemory>
    requires replica { r.0 < length holders.old.items }
    requires fit { All (λ h. H.fits h x.now) holders.old.items }
    requires package { IsPackage x.now pack.now }
    ensures receipt { IfOk result
        (IsReceipt x.now (map H.received holders.old.items) r.0 pack.now
        (map H.received holders.new.items)) }
    ensures fit { All (λ h. H.fits h x.now) holders.new.items }
    ensures count { length holders.new.items ≡ length holders.old.items }
    ensures same { OnErr result
        (map H.received holders.new.items ≡ map H.received holders.old.items) }
    ensures fit_same { OnErr result
        ((y : List Effect) → All (λ h. H.fits h y) holders.old.items
        → All (λ h. H.fits h y) holders.new.items) }
{
    let holder = &mut holders[r.0 as usize];
    holder.receive(pack, x)
}
