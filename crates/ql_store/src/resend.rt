ghost use Rattle.std.specs.Prelude.{◌≡◌, ◌<◌, ◌+◌, ◌^◌, All, length, map, IfOk, OnErr};
ghost use Rattle.ql_machine.specs.declared.event.Event.TheVariants as event;
ghost use Rattle.ql_machine.specs.Rules.{Rules};
ghost use Rattle.ql_machine.specs.Steps.{IsStep};
ghost use Rattle.ql_shim.specs.Transactions.{Transactions};
ghost use Rattle.ql_store.specs.State.{machine_of};

use ql_base::{EffId, NoMemory, ReplicaId};
use ql_exec::Execution;
use ql_holder::Holder;
use ql_machine::{Reply, Why};
use ql_net::Net;
use ql_strong::package_of;
use std::alloc::Global;

/// A replica sends another one an effect that it has received, with its transaction.
pub(crate) fn resend<H: Holder>(
    alloc: Global,
    x: &Execution,
    holders: &Vec<H>,
    net: &mut Net,
    effect: EffId,
    from: ReplicaId,
    to: ReplicaId,
) -> Result<Reply, NoMemory>
    requires replica { from.0 < length holders.now.items }
    requires room { length net.old.messages + 1 < 2 ^ 32 }
    requires fit { All (λ h. H.fits h x.now) holders.now.items }
    ensures step { IfOk result (λ r. (rules : Rules) (shim : Transactions)
        → IsStep rules (machine_of x.now (map H.received holders.now.items) net.old shim)
        (event.Resend effect from to)
        (machine_of x.now (map H.received holders.now.items) net.new shim) r) }
    ensures net { OnErr result (net.new ≡ net.old) }
{
    let holder = &holders[from.0 as usize];
    if !holder.has(effect) {
        return Ok(Reply::Refused(Why::Absent));
    }
    let pack = package_of(alloc, x, effect)?;
    let m = net.send(from, to, pack)?;
    Ok(Reply::Sent(m))
}
