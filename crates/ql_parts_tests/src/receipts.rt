use crate::executions::execution_of;
use ql_base::{EffId, NoMemory, push_bytes, push_number};
use ql_exec::Execution;
use ql_holder::{Arrival, Holder};
use ql_plain_holder::{PlainHolder, package_of};
use ql_replica::Replica;
use ql_test_inputs::{check_table, number};
use std::alloc::Global;
use std::test::Fail;

// Effects, and the answers as their packages are received in some order, each named by one of its effects.
const RECEIVED: &str = "
0 1 0; 0 2 0 sees 1; 0 3 0 sees 1 2; 0 4 0 sees 1 2 3 in order 4 2 1 3 -> waits 1, waits 1, applies 1 2, applies 3 4
0 1 0; 0 1 0; 1 1 0; 0 1 0 in order 4 3 2 2 1 1 -> waits 1, applies 3, waits 1, again, applies 1 2 4, again
0 1 1; 1 1 1; 0 2 0 sees 1; 1 2 0 sees 2 in order 3 4 2 -> waits 1, waits 1, applies 1 2 3 4
0 1 1; 0 2 2; 0 2 2 sees 1; 0 1 1 sees 2 in order 1 3 -> waits 2, applies 1 2 3 4
";

#[test]
fn a_replica_receives(rt: HostRuntime) -> Result<(), Fail> {
    check_table(rt.alloc(), RECEIVED, |alloc, row| {
        let (effects, order) = row.split_once(" in order ").unwrap_or((row, ""));
        let execution = execution_of(alloc, effects)?;
        answers::<Replica>(alloc, &execution, order)
    })
}

#[test]
fn a_plain_holder_receives(rt: HostRuntime) -> Result<(), Fail> {
    check_table(rt.alloc(), RECEIVED, |alloc, row| {
        let (effects, order) = row.split_once(" in order ").unwrap_or((row, ""));
        let execution = execution_of(alloc, effects)?;
        answers::<PlainHolder>(alloc, &execution, order)
    })
}

// What a holder answers as it receives the packages of these effects.
fn answers<H: Holder>(alloc: Global, x: &Execution, order: &str) -> Result<Vec<u8>, NoMemory> {
    let mut ids = Vec::new(alloc);
    for id in order.split_whitespace() {
        ids.push(number(id, 0))?;
    }
    let mut out = Vec::new(alloc);
    received::<H>(alloc, x, &ids, false, &mut out)?;
    Ok(out)
}

/// A holder that received the packages of these effects. Spells its answers and, on request, what
/// it has received and applied after each.
pub(crate) fn received<H: Holder>(
    alloc: Global,
    x: &Execution,
    ids: &[u32],
    with_state: bool,
    out: &mut Vec<u8>,
) -> Result<H, NoMemory> {
    let mut holder = H::empty(alloc);
    for id in ids {
        if !out.is_empty() {
            push_bytes(out, b", ")?;
        }
        receive(alloc, x, &mut holder, *id, out)?;
        if with_state {
            push_state(&holder, x.len(), out)?;
        }
    }
    Ok(holder)
}

// A letter for each effect: received, applied, both or neither.
fn push_state<H: Holder>(holder: &H, count: u32, out: &mut Vec<u8>) -> Result<(), NoMemory> {
    for e in 1..=count {
        let letter = match (holder.has(EffId(e)), holder.applied(EffId(e))) {
            (true, true) => b"b",
            (true, false) => b"r",
            (false, true) => b"a",
            (false, false) => b"n",
        };
        push_bytes(out, letter)?;
    }
    Ok(())
}

// Receives the package of an effect, and spells the answer.
fn receive<H: Holder>(
    alloc: Global,
    x: &Execution,
    holder: &mut H,
    id: u32,
    out: &mut Vec<u8>,
) -> Result<(), NoMemory>
    requires { H.fits holder.old x.now }
    ensures { H.fits holder.new x.now }
{
    if id == 0 || id > x.len() {
        return Ok(());
    }
    let pack = package_of(alloc, x, id)?;
    let arrival = holder.receive(&pack, x)?;
    push_arrival(out, &arrival)
}

fn push_arrival(out: &mut Vec<u8>, arrival: &Arrival) -> Result<(), NoMemory> {
    match arrival {
        Arrival::Again => push_bytes(out, b"again"),
        Arrival::Waits(missing) => {
            push_bytes(out, b"waits ")?;
            push_number(out, missing.0)
        }
        Arrival::Applies(ids) => {
            push_bytes(out, b"applies")?;
            push_ids(out, ids.items())
        }
    }
}

fn push_ids(out: &mut Vec<u8>, ids: &[u32]) -> Result<(), NoMemory> {
    for id in ids {
        push_bytes(out, b" ")?;
        push_number(out, *id)?;
    }
    Ok(())
}

// The worked case of ranges: 4, 2 and 1 of four effects are received.
#[test]
fn ranges_and_watches(rt: HostRuntime) -> Result<(), Fail> {
    let alloc = rt.alloc();
    let x = execution_of(
        alloc,
        "0 1 0; 0 2 0 sees 1; 0 3 0 sees 1 2; 0 4 0 sees 1 2 3",
    )?;
    let mut out = Vec::new(alloc);
    let replica = received::<Replica>(alloc, &x, &[4, 2, 1], false, &mut out)?;
    let copy = replica.copy()?;
    let mut kept = Vec::new(alloc);
    for range in copy.ranges().items() {
        kept.push((range.from, range.to))?;
    }
    assert_eq!(rt; kept.as_slice(), [(1, 2), (4, 4)].as_slice());
    let watches = [1, 2, 3, 4].map(|e| copy.watch_of(EffId(e)).map_or(0, |watched| watched.0));
    assert_eq!(rt; watches.as_slice(), [0, 0, 0, 3].as_slice());
    Ok(())
}
