ghost use Rattle.std.specs.Prelude.{◌≡◌, ℕ, All, length, map, IfOk, OnErr};
ghost use Rattle.ql_shim.specs.Transactions.{Transactions};
ghost use Rattle.ql_machine.specs.Deliveries.{IsDelivery};
ghost use Rattle.ql_machine.specs.Rules.{Promises};
ghost use Rattle.ql_machine.specs.Kept.{Keeps, IsWhole};
ghost use Rattle.ql_store.specs.Receipts.{reply_of};
ghost use Rattle.ql_store.specs.State.{GoWithin, machine_of};

use crate::receive::receive_at;
use ql_base::{MsgId, NoMemory, ReplicaId};
use ql_exec::Execution;
use ql_holder::{Arrival, Holder};
use ql_machine::Reply;
use ql_net::{Flight, Net};

/// A copy of a message arrives.
pub(crate) fn deliver<H: Holder>(
    x: &Execution,
    holders: &mut Vec<H>,
    net: &mut Net,
    m: MsgId,
) -> Result<Reply, NoMemory>
    requires fit { All (λ h. H.fits h x.now) holders.old.items }
    requires whole { IsWhole x.now (map H.received holders.old.items) net.old.messages }
    requires receivers { GoWithin (length holders.old.items) net.old.messages }
    ensures delivered { IfOk result (λ r. (promises : Promises) (n : ℕ) (shim : Transactions)
        → Keeps promises n (machine_of x.now (map H.received holders.old.items) net.old shim)
        → IsDelivery (machine_of x.now (map H.received holders.old.items) net.old shim) m.0
        (machine_of x.now (map H.received holders.new.items) net.new shim) r) }
    ensures fit { All (λ h. H.fits h x.now) holders.new.items }
    ensures count { length holders.new.items ≡ length holders.old.items }
    ensures same { OnErr result
        (map H.received holders.new.items ≡ map H.received holders.old.items) }
    ensures net { OnErr result (net.new ≡ net.old) }
{
    match net.look(m) {
        Flight::Gone => Ok(Reply::Gone),
        Flight::Cut => Ok(Reply::Cut),
        Flight::Ready(_, receiver) => {
            let arrival = receive_at(holders, receiver, net.package(m), x)?;
            net.spend(m);
            Ok(reply_of(arrival))
        }
    }
}

fn reply_of(arrival: Arrival) -> Reply
    ensures { result ≡ reply_of arrival }
{
    match arrival {
        Arrival::Again => Reply::Again,
        Arrival::Waits(missing) => Reply::Waits(missing),
        Arrival::Applies(gain) => Reply::Applies(gain),
    }
}
