ghost use Rattle.std.specs.Prelude.{◌≡◌, length, IfOk};

use ql_base::{MsgId, NoMemory, ReplicaId};
use ql_machine::Groups;
use ql_net::{Flight, Net};
use ql_test_inputs::id_set;
use std::alloc::Global;
use std::test::Fail;

const FIRST: MsgId = MsgId(1);

// One write at replica 0: its message is repeated, arrives twice, and is gone.
#[test]
fn a_message_arrives_as_often_as_it_is_in_flight(rt: HostRuntime) -> Result<(), Fail> {
    let alloc = rt.alloc();
    let mut net = Net::new(alloc, 2)?;
    net.send(ReplicaId(0), ReplicaId(1), id_set(alloc, &[1])?)?;
    assert!(rt; net.repeat(FIRST));
    assert!(rt; arrives_twice(&mut net));
    assert!(rt; !net.lose(FIRST) && net.len() == 1);
    Ok(())
}

fn arrives_twice(net: &mut Net) -> bool {
    deliver(net) && deliver(net) && !deliver(net)
}

fn deliver(net: &mut Net) -> bool {
    match net.look(FIRST) {
        Flight::Ready(_, _) => {
            net.spend(FIRST);
            true
        }
        _ => false,
    }
}

// Two replicas are partitioned and then healed.
#[test]
fn a_message_passes_within_a_group(rt: HostRuntime) -> Result<(), Fail> {
    let mut net = partitioned(rt.alloc())?;
    assert!(rt; is_cut(&net));
    assert!(rt; joins_a_group(&mut net)?);
    net.heal();
    assert!(rt; passes(&net));
    net.forget(0);
    assert!(rt; net.is_empty());
    Ok(())
}

// Replica 1 sent a message to replica 0, which is in another group.
fn partitioned(alloc: Global) -> Result<Net, NoMemory>
    ensures { IfOk result (λ net. length net.groups ≡ 2) }
{
    let mut net = Net::new(alloc, 2)?;
    net.send_to_others(ReplicaId(1), &id_set(alloc, &[1])?)?;
    net.partition(Groups::of(vec![in alloc; 3, 5]?));
    Ok(net)
}

fn is_cut(net: &Net) -> bool {
    net.look(FIRST) == Flight::Cut && net.outside(ReplicaId(0)) == Some(ReplicaId(1))
}

fn joins_a_group(net: &mut Net) -> Result<bool, NoMemory>
    requires { length net.old.groups ≡ 2 }
{
    let joined = net.join(ReplicaId(1))?;
    Ok(net.together(joined, ReplicaId(1)) && !net.together(joined, ReplicaId(0)))
}

fn passes(net: &Net) -> bool {
    net.look(FIRST) == Flight::Ready(ReplicaId(1), ReplicaId(0))
        && net.outside(ReplicaId(0)).is_none()
        && net.look(MsgId(2)) == Flight::Gone
}
