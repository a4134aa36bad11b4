ghost use Rattle.std.specs.Prelude.{◌≡◌, ℕ, List, length};
ghost use Rattle.ql_exec.specs.declared.effect.Effect.{Effect};
ghost use Rattle.ql_store.specs.Obstacles.{IsObstacle};
ghost use Rattle.ql_store.specs.State.{machine_of};

use ql_base::{ObjId, ReplicaId};
use ql_machine::Reply;
use ql_net::Net;
use ql_shim::Shim;

/// Why a strong call can't be answered, if it can't: a replica that the called one can't reach, or an open
/// transaction that declares the object. Goes over the replicas and the open transactions.
pub(crate) fn obstacle(net: &Net, shim: &Shim, r: ReplicaId, object: ObjId) -> Option<Reply>
    ensures { (x : List Effect) (received : List (List ℕ)) → length received ≡ length net.now.groups
        → IsObstacle (machine_of x received net.now shim.now) r object result }
{
    match net.outside(r) {
        Some(outside) => Some(Reply::Unavailable(outside)),
        None => match shim.holder_of(object) {
            Some(session) => Some(Reply::Held(session)),
            None => None,
        },
    }
}
