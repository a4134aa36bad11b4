ghost use Rattle.std.specs.Prelude.{◌≡◌, ◌<◌, ◌+◌, ◌^◌, ◌++◌, ℕ, List, All, false, length, map, OnOk, OnErr};
ghost use Rattle.ql_base.specs.IdLists.{has_id};
ghost use Rattle.ql_exec.specs.declared.effect.Effect.{Effect};
ghost use Rattle.ql_holder.specs.Closed.{Has};
ghost use Rattle.ql_holder.specs.Needs.{IsPackage};
ghost use Rattle.ql_machine.specs.Changes.{package_to_others, received_by};
ghost use Rattle.ql_machine.specs.State.{received_at};

use crate::receive::receive_at;
use ql_base::{IdSet, NoMemory, ReplicaId};
use ql_exec::Execution;
use ql_holder::Holder;
use ql_net::Net;

/// A replica receives a package that is new to it, and sends it to each other one.
pub(crate) fn spread<H: Holder>(
    x: &Execution,
    holders: &mut Vec<H>,
    net: &mut Net,
    r: ReplicaId,
    pack: &IdSet,
) -> Result<(), NoMemory>
    requires replica { r.0 < length holders.old.items }
    requires room { length net.old.messages + length net.old.groups < 2 ^ 32 }
    requires fit { All (λ h. H.fits h x.now) holders.old.items }
    requires package { IsPackage x.now pack.now }
    requires new { (a : ℕ) → Has pack.now a
        → has_id (received_at (map H.received holders.old.items) r.0) a ≡ false }
    ensures received { OnOk result
        (map H.received holders.new.items
        ≡ received_by (map H.received holders.old.items) r.0 pack.now) }
    ensures sent { OnOk result (net.new ≡ record net.old {
      messages = net.old.messages ++ package_to_others (length net.old.groups) r pack.now;
    }) }
    ensures fit { All (λ h. H.fits h x.now) holders.new.items }
    ensures same { OnErr result
        (map H.received holders.new.items ≡ map H.received holders.old.items) }
    ensures fit_same { OnErr result
        ((y : List Effect) → All (λ h. H.fits h y) holders.old.items
        → All (λ h. H.fits h y) holders.new.items) }
    ensures net { OnErr result (net.new ≡ net.old) }
{
    let sent = net.len();
    net.send_to_others(r, pack)?;
    match receive_at(holders, r, pack, x) {
        Err(NoMemory) => {
            net.forget(sent);
            return Err(NoMemory);
        }
        Ok(_) => Ok(()),
    }
}
