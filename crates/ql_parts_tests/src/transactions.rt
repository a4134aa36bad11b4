ghost use Rattle.std.specs.Prelude.{◌≡◌, ◌≤◌, Some, length, IfOk};
ghost use Rattle.ql_machine.specs.declared.open_txn.OpenTxn.{OpenTxn};
ghost use Rattle.ql_machine.specs.State.{open_of};
ghost use Rattle.ql_shim.specs.Transactions.{open_txns};
ghost use Rattle.ql_holder.specs.Needs.{AreThere, AreWhole, IsPackage};

use ql_base::{DeclId, EffId, IdSet, NoMemory, ObjId, RunId, SessId};
use ql_exec::{Execution, Member};
use ql_holder::Holder;
use ql_levels::TxnLevel;
use ql_replica::Replica;
use ql_shim::{Shim, View};
use ql_strong::{bare, package_of, sync};
use ql_test_inputs::{draft, id_set};
use std::alloc::Global;
use std::test::Fail;

// Session 2 made effect 1. Session 1 made effect 2 in a transaction, and effect 2 saw these.
fn execution(alloc: Global, seen: &[u32]) -> Result<Execution, NoMemory>
    ensures { IfOk result (λ x. length x ≡ 2) }
{
    let mut x = Execution::new(alloc);
    let alone = draft(alloc, 0, 2, Member::Alone, IdSet::new(alloc));
    let inside = draft(
        alloc,
        0,
        1,
        Member::Inside(RunId(1), DeclId(4)),
        id_set(alloc, seen)?,
    );
    match x.push(alone) {
        Err(_) => Err(NoMemory),
        Ok(_) => match x.push(inside) {
            Err(_) => Err(NoMemory),
            Ok(_) => Ok(x),
        },
    }
}

fn package_at(alloc: Global, x: &Execution, id: EffId) -> Result<IdSet, NoMemory>
    requires first { 1 ≤ id.0 }
    requires last { id.0 ≤ length x.now }
    ensures one { IfOk result (IsPackage x.now) }
    ensures whole { IfOk result (AreWhole x.now) }
{
    package_of(alloc, x, id)
}

// Session 1 has transaction 4 open on object 0, which began with nothing and made effect 2.
fn opened(alloc: Global, seen: &[u32]) -> Result<Shim, NoMemory>
    ensures { IfOk result
        (λ shim. (t : OpenTxn) × (open_of (open_txns shim) (record { 0 = 1 }) ≡ Some t)) }
{
    let mut shim = Shim::new(alloc);
    shim.begin(
        SessId(1),
        DeclId(4),
        id_set(alloc, &[0])?,
        IdSet::new(alloc),
    )?;
    shim.note(SessId(1), EffId(2), &id_set(alloc, seen)?)?;
    Ok(shim)
}

// The ids of the effects on the object.
fn both(x: &Execution) -> &'static [u32]
    requires { length x.now ≡ 2 }
    ensures { AreThere x.now result.now }
{
    &[1, 2]
}

#[test]
fn an_open_transaction(rt: HostRuntime) -> Result<(), Fail> {
    let mut shim = opened(rt.alloc(), &[])?;
    assert!(rt; is_open(&shim) && shim.own(SessId(1)).items() == [2].as_slice());
    assert!(rt; shim.finish(SessId(1)).items() == [2].as_slice());
    assert!(rt; is_closed(&shim));
    Ok(())
}

fn is_open(shim: &Shim) -> bool {
    let (session, object) = (SessId(1), ObjId(0));
    shim.run_of(session) == Some((RunId(1), DeclId(4)))
        && shim.declares(session, object)
        && !shim.declares(SessId(0), object)
        && shim.holder_of(object) == Some(session)
        && shim.holder_of(ObjId(1)).is_none()
}

fn is_closed(shim: &Shim) -> bool {
    shim.run_of(SessId(1)).is_none() && shim.holder_of(ObjId(0)).is_none()
}

// Whether a view has these effects and misses this one.
fn is_view(view: &View, ids: &[u32], missing: Option<EffId>) -> bool {
    view.ids.items() == ids && view.missing == missing
}

// The view at a level. Effect 1 arrived after the transaction began and before its second call.
fn view_at(alloc: Global, level: TxnLevel) -> Result<View, NoMemory> {
    let x = execution(alloc, &[])?;
    let shim = opened(alloc, &[])?;
    let mut replica = Replica::empty(alloc);
    replica.receive(&package_at(alloc, &x, EffId(1))?, &x)?;
    shim.view_rule(SessId(1), level, &replica, &x, both(&x))
}

#[test]
fn a_view_by_level(rt: HostRuntime) -> Result<(), Fail> {
    let alloc = rt.alloc();
    assert!(rt; is_view(&view_at(alloc, TxnLevel::Rr)?, &[2], None));
    assert!(rt; is_view(&view_at(alloc, TxnLevel::Rc)?, &[1, 2], None));
    Ok(())
}

// The transaction saw effect 1, and goes on at a replica that hasn't received it.
#[test]
fn an_effect_that_is_missing(rt: HostRuntime) -> Result<(), Fail> {
    let alloc = rt.alloc();
    let x = execution(alloc, &[1])?;
    let shim = opened(alloc, &[1])?;
    let replica = Replica::empty(alloc);
    let monotonic = shim.view_rule(SessId(1), TxnLevel::Mav, &replica, &x, both(&x))?;
    assert!(rt; is_view(&monotonic, &[], Some(EffId(1))));
    Ok(())
}

#[test]
fn all_receive_what_is_committed(rt: HostRuntime) -> Result<(), Fail> {
    let alloc = rt.alloc();
    let x = execution(alloc, &[])?;
    let committed = package_at(alloc, &x, EffId(1))?;
    let mut holders = Vec::new(alloc);
    holders.push(Replica::empty(alloc))?;
    let synced = sync(alloc, &holders, &x, &committed)?;
    assert!(rt; synced.len() == 1 && synced[0].has(EffId(1)) && !synced[0].has(EffId(2)));
    Ok(())
}

// The transaction's effect saw effect 1, and no other replica is asked.
#[test]
fn a_bare_replica_has_what_its_effects_need(rt: HostRuntime) -> Result<(), Fail> {
    let x = execution(rt.alloc(), &[1])?;
    let first = bare_at(rt.alloc(), &x, EffId(1))?;
    assert!(rt; first.has(EffId(1)) && !first.has(EffId(2)));
    let second = bare_at(rt.alloc(), &x, EffId(2))?;
    assert!(rt; second.applied(EffId(1)) && second.applied(EffId(2)));
    Ok(())
}

fn bare_at(alloc: Global, x: &Execution, id: EffId) -> Result<Replica, NoMemory>
    requires first { 1 ≤ id.0 }
    requires last { id.0 ≤ length x.now }
{
    bare(alloc, x, &package_at(alloc, x, id)?)
}
