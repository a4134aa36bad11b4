ghost use Rattle.std.specs.Prelude.{◌≡◌, IfOk, length};
ghost use Rattle.ql_slimming.specs.Stability.{AreViews};

use ql_base::{IdSet, NoMemory, ObjId, ReplicaId};
use ql_replica::Replica;
use ql_store::Store;
use std::alloc::Global;

/// What each replica has applied on an object.
pub(crate) fn views_on(
    alloc: Global,
    store: &Store<Replica>,
    replicas: u32,
    object: ObjId,
) -> Result<Vec<IdSet>, NoMemory>
    requires { length store.now.machine.received ≡ replicas }
    ensures { IfOk result (λ views. AreViews store.now.machine object views.items) }
{
    let mut views = Vec::with_capacity(alloc, replicas as usize)?;
    for r in 0..replicas {
        views.push(store.view_at(ReplicaId(r), object)?)?;
    }
    Ok(views)
}
