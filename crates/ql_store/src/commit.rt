ghost use Rattle.std.specs.Prelude.{◌≡◌, ◌<◌, ◌+◌, ◌^◌, ◌++◌, ℕ, All, false, length, map, IfOk, OnOk, OnErr};
ghost use Rattle.ql_base.specs.IdLists.{has_id};
ghost use Rattle.ql_holder.specs.Closed.{Has};
ghost use Rattle.ql_holder.specs.Needs.{IsPackage};
ghost use Rattle.ql_machine.specs.declared.event.Event.TheVariants as event;
ghost use Rattle.ql_machine.specs.Changes.{package_to_others, received_by};
ghost use Rattle.ql_machine.specs.Rules.{Rules};
ghost use Rattle.ql_machine.specs.State.{received_at};
ghost use Rattle.ql_machine.specs.Steps.{IsStep};
ghost use Rattle.ql_store.specs.State.{AreKnown, IsState, machine_of};

use crate::spread::spread;
use ql_base::{IdSet, NoMemory, ReplicaId, SessId};
use ql_exec::Execution;
use ql_holder::Holder;
use ql_machine::{Reply, Why};
use ql_net::Net;
use ql_shim::Shim;

/// A session commits its open transaction: a replica receives its effects and sends them to each other one.
pub(crate) fn commit<H: Holder>(
    x: &Execution,
    holders: &mut Vec<H>,
    net: &mut Net,
    shim: &mut Shim,
    session: SessId,
    replica: ReplicaId,
) -> Result<Reply, NoMemory>
    requires replica { replica.0 < length holders.old.items }
    requires room { length net.old.messages + length net.old.groups < 2 ^ 32 }
    requires fit { All (λ h. H.fits h x.now) holders.old.items }
    requires state { IsState x.now (map H.received holders.old.items) net.old shim.old }
    ensures step { IfOk result
        (λ r. (rules : Rules)
        → IsStep rules (machine_of x.now (map H.received holders.old.items) net.old shim.old)
        (event.Commit session replica)
        (machine_of x.now (map H.received holders.new.items) net.new shim.new) r) }
    ensures fit { All (λ h. H.fits h x.now) holders.new.items }
    ensures known { AreKnown x.now shim.new }
    ensures same { OnErr result
        (map H.received holders.new.items ≡ map H.received holders.old.items) }
    ensures net { OnErr result (net.new ≡ net.old) }
    ensures shim { OnErr result (shim.new ≡ shim.old) }
{
    match shim.run_of(session) {
        None => Ok(Reply::Refused(Why::NotOpen)),
        Some(_) => {
            spread_all(x, holders, net, replica, shim.own(session))?;
            Ok(Reply::Committed(shim.finish(session)))
        }
    }
}

// A replica receives all effects of a transaction, which are new to it, and sends them to each other one. If there are
// none, nothing is sent.
fn spread_all<H: Holder>(
    x: &Execution,
    holders: &mut Vec<H>,
    net: &mut Net,
    r: ReplicaId,
    own: &IdSet,
) -> Result<(), NoMemory>
    requires replica { r.0 < length holders.old.items }
    requires room { length net.old.messages + length net.old.groups < 2 ^ 32 }
    requires fit { All (λ h. H.fits h x.now) holders.old.items }
    requires package { (a : ℕ) → Has own.now a → IsPackage x.now own.now }
    requires new { (a : ℕ) → Has own.now a
        → has_id (received_at (map H.received holders.old.items) r.0) a ≡ false }
    ensures received { OnOk result
        (map H.received holders.new.items
        ≡ received_by (map H.received holders.old.items) r.0 own.now) }
    ensures sent { OnOk result (net.new ≡ record net.old {
      messages = net.old.messages ++ package_to_others (length net.old.groups) r own.now;
    }) }
    ensures fit { All (λ h. H.fits h x.now) holders.new.items }
    ensures same { OnErr result
        (map H.received holders.new.items ≡ map H.received holders.old.items) }
    ensures net { OnErr result (net.new ≡ net.old) }
{
    if own.is_empty() {
        return Ok(());
    }
    spread(x, holders, net, r, own)
}
