ghost use Rattle.std.specs.Prelude.{◌≡◌, ◌<◌, ◌+◌, ◌^◌, ℕ, List, length, IfOk, OnErr};
ghost use Rattle.ql_base.specs.declared.ids.ReplicaId.{ReplicaId};
ghost use Rattle.ql_holder.specs.Arrivals.{Applied};
ghost use Rattle.ql_machine.specs.declared.event.Event.TheVariants as event;
ghost use Rattle.ql_machine.specs.Rules.{Rules};
ghost use Rattle.ql_machine.specs.Sets.{AreThose};
ghost use Rattle.ql_machine.specs.State.{received_at};
ghost use Rattle.ql_machine.specs.Steps.{IsStep};
ghost use Rattle.ql_net.specs.Network.{Network};
ghost use Rattle.ql_store.specs.State.{AreKnown, IsState, machine_of};

use ql_base::{DeclId, EffId, IdSet, NoMemory, SessId};
use ql_exec::Execution;
use ql_holder::Holder;
use ql_machine::{Reply, Why};
use ql_shim::Shim;
use std::alloc::Global;

/// A session begins a transaction at the replica of a holder. Its snapshot is what the holder has applied.
pub(crate) fn begin<H: Holder>(
    alloc: Global,
    x: &Execution,
    holder: &H,
    shim: &mut Shim,
    session: SessId,
    decl: DeclId,
    objects: IdSet,
) -> Result<Reply, NoMemory>
    requires room { shim.old.begun + 1 < 2 ^ 32 }
    requires fits { H.fits holder.now x.now }
    ensures step { IfOk result
        (λ r. (rules : Rules) (received : List (List ℕ)) (net : Network) (replica : ReplicaId)
        → IsState x.now received net shim.old → replica.0 < length received
        → received_at received replica.0 ≡ H.received holder.now
        → IsStep rules (machine_of x.now received net shim.old)
        (event.Begin session replica decl objects) (machine_of x.now received net shim.new) r) }
    ensures known { (received : List (List ℕ)) (net : Network) → IsState x.now received net shim.old
        → AreKnown x.now shim.new }
    ensures err { OnErr result (shim.new ≡ shim.old) }
{
    match shim.run_of(session) {
        Some(_) => Ok(Reply::Refused(Why::AlreadyOpen)),
        None => {
            let snapshot = applied_by(alloc, x, holder)?;
            shim.begin(session, decl, objects, snapshot)?;
            Ok(Reply::Begun)
        }
    }
}

// All effects that a holder has applied. Looks up each effect of the execution once.
fn applied_by<H: Holder>(alloc: Global, x: &Execution, holder: &H) -> Result<IdSet, NoMemory>
    requires { H.fits holder.now x.now }
    ensures { IfOk result (λ ids. AreThose (Applied x.now (H.received holder.now)) ids) }
{
    let mut ids = IdSet::new(alloc);
    for k in 0..x.len() {
        if holder.applied(EffId(k + 1)) {
            ids.insert(k + 1)?;
        }
    }
    Ok(ids)
}
