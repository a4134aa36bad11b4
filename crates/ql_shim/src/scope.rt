ghost use Rattle.std.specs.Prelude.{◌≡◌, ◌||◌, nat_eq, ℕ, true, Some, IfOk, IfSome, OnOk};
ghost use Rattle.ql_base.specs.IdLists.{has_id};
ghost use Rattle.ql_base.specs.declared.ids.ObjId.{ObjId};
ghost use Rattle.ql_exec.specs.Effects.{effect_at};
ghost use Rattle.ql_exec.specs.Execution.{IsExecution, IsOn};
ghost use Rattle.ql_exec.specs.Relations.{vis};
ghost use Rattle.ql_holder.specs.Closed.{Has};
ghost use Rattle.ql_holder.specs.Needs.{AreThere};
ghost use Rattle.ql_machine.specs.Blocking.{IsOf};
ghost use Rattle.ql_machine.specs.Sets.{AreThose, has_all};
ghost use Rattle.ql_shim.specs.Joined.{IsComplete, IsJoined, IsNextJoined};

use crate::lookup::has_next;
use crate::running::Running;
use ql_base::{IdSet, NoMemory};
use ql_exec::{Effect, Execution};
use std::alloc::Global;

// The effects on an object that a call sees, collected in ascending order.
#[derive(Drop)]
struct Gathered {
    ids: IdSet,
    // All effects of the session that were reached so far are among them.
    whole: bool,
}

/// The effects on an object that a transaction sees: the given ones of others, and each own one for which what
/// it saw and what its session did before on the object is seen.
///
/// Goes over the effects on the object once; if one that was seen isn't any more, also over what the own
/// ones among them saw.
pub(crate) fn with_own(
    alloc: Global,
    x: &Execution,
    running: &Running,
    others: &IdSet,
    on: &[u32],
) -> Result<IdSet, NoMemory>
    requires { AreThere x.now on.now }
    ensures execution { IsExecution x.now }
    ensures joined { IfOk result
        (λ ids. (o : ObjId) → AreThose (λ a. IsOn o (effect_at x.now a)) on.now
        → ((a : ℕ) → Has running.now.own a → IsOf running.now.txn.session (effect_at x.now a))
        → ((a b : ℕ) → Has running.now.own b → vis x.now a b ≡ true → Has running.now.saw a)
        → IsJoined x.now running.now.own others.now on.now ids) }
{
    match all_own(alloc, x, running, others, on)? {
        Some(ids) => Ok(ids),
        None => one_by_one(alloc, x, running, others, on),
    }
}

// All own effects and the given ones of others, if these leave out nothing that an own one saw and nothing of
// the session; else none.
fn all_own(
    alloc: Global,
    x: &Execution,
    running: &Running,
    others: &IdSet,
    on: &[u32],
) -> Result<Option<IdSet>, NoMemory>
    requires { AreThere x.now on.now }
    ensures execution { IsExecution x.now }
    ensures complete { IfOk result
        (λ found. IfSome found
        (λ ids. IsComplete x.now running.now.own running.now.saw others.now
        running.now.txn.session on.now ids)) }
{
    let effects = x.effects();
    let mut ids = IdSet::new(alloc);
    let mut next = 0;
    for a in on {
        if is_kept(*a, running, others, &mut next) {
            ids.insert(*a)?;
        } else if is_awaited(&effects[*a as usize - 1], *a, running) {
            return Ok(None);
        }
    }
    Ok(Some(ids))
}

// Whether an effect is an own one or one of the given others, which are looked up from `next` on.
fn is_kept(a: u32, running: &Running, others: &IdSet, next: &mut usize) -> bool
    ensures { result ≡ (has_id running.now.own a || has_id others.now a) }
{
    has_next(others, next, a) || running.own.has(a)
}

// Whether own effects may need this one: one of them saw it, or it is of their session.
fn is_awaited(effect: &Effect, a: u32, running: &Running) -> bool
    ensures { result ≡ (has_id running.now.saw a
        || nat_eq effect.now.session.0 running.now.txn.session.0) }
{
    running.saw.has(a) || effect.session.0 == running.txn.session.0
}

// The same, judging each effect by those before it.
fn one_by_one(
    alloc: Global,
    x: &Execution,
    running: &Running,
    others: &IdSet,
    on: &[u32],
) -> Result<IdSet, NoMemory>
    requires { AreThere x.now on.now }
    ensures execution { IsExecution x.now }
    ensures joined { IfOk result
        (λ ids. (o : ObjId) → AreThose (λ a. IsOn o (effect_at x.now a)) on.now
        → ((a : ℕ) → Has running.now.own a → IsOf running.now.txn.session (effect_at x.now a))
        → IsJoined x.now running.now.own others.now on.now ids) }
{
    let mut gathered = Gathered {
        ids: IdSet::new(alloc),
        whole: true,
    };
    let effects = x.effects();
    for a in on {
        add_next(
            &mut gathered,
            &effects[*a as usize - 1],
            *a,
            running,
            others,
        )?;
    }
    Ok(gathered.ids)
}

// Takes the next effect on the object.
fn add_next(
    gathered: &mut Gathered,
    effect: &Effect,
    a: u32,
    running: &Running,
    others: &IdSet,
) -> Result<(), NoMemory>
    ensures { OnOk result
        (IsNextJoined gathered.old.ids gathered.old.whole effect.now a running.now.txn.session
        running.now.own others.now gathered.new.ids gathered.new.whole) }
{
    let is_seen = if running.own.has(a) {
        gathered.whole && all_in(effect.seen.items(), &gathered.ids)
    } else {
        others.has(a)
    };
    if is_seen {
        gathered.ids.insert(a)?;
    } else if effect.session.0 == running.txn.session.0 {
        gathered.whole = false;
    }
    Ok(())
}

fn all_in(ids: &[u32], others: &IdSet) -> bool
    ensures { result ≡ has_all others.now ids.now }
{
    for id in ids {
        if !others.has(*id) {
            return false;
        }
    }
    true
}
