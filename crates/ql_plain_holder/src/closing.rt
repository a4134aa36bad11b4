ghost use Rattle.std.specs.Prelude.{◌≡◌, ◌⊎◌, ◌↔◌, ◌≤◌, ◌&&◌, ◌||◌, not, nat_eq, ℕ, true, length, IfOk, OnOk};
ghost use Rattle.ql_base.specs.IdLists.{IsAscending, has_id};
ghost use Rattle.ql_exec.specs.Relations.{sametxn};
ghost use Rattle.ql_holder.specs.Closed.{Has};
ghost use Rattle.ql_holder.specs.Needs.{AreWhole, IsPackage};
ghost use Rattle.ql_holder.specs.Arrivals.{Applied};
ghost use Rattle.ql_holder.specs.Missing.{IsFirstMissing};

use ql_base::{IdSet, NoMemory};
use ql_exec::Execution;
use ql_holder::is_same_txn;
use ql_ranges::{Ranges, reach};
use std::alloc::Global;

/// Those of some effects for which all that they need, directly or through others, is among these effects.
pub(crate) fn closed_part(
    alloc: Global,
    x: &Execution,
    after: &IdSet,
    ids: &[u32],
) -> Result<IdSet, NoMemory>
    requires whole { AreWhole x.now after.now }
    requires same { ids.now ≡ after.now }
    ensures { IfOk result (λ closed. (a : ℕ) → Has closed a ↔ Applied x.now after.now a) }
{
    let mut closed = IdSet::new(alloc);
    for id in ids {
        close(alloc, x, after, *id, &mut closed)?;
    }
    Ok(closed)
}

fn close(
    alloc: Global,
    x: &Execution,
    after: &IdSet,
    id: u32,
    closed: &mut IdSet,
) -> Result<(), NoMemory>
    requires first { 1 ≤ id }
    requires last { id ≤ length x.now }
    ensures { OnOk result
        ((a : ℕ) → Has closed.new a
        ↔ (Has closed.old a ⊎ ((a ≡ id) × Applied x.now after.now id))) }
{
    let is_closed = is_closed(alloc, x, after, id)?;
    if is_closed {
        insert_id(closed, id)
    } else {
        Ok(())
    }
}

fn is_closed(alloc: Global, x: &Execution, after: &IdSet, id: u32) -> Result<bool, NoMemory>
    requires first { 1 ≤ id }
    requires last { id ≤ length x.now }
    ensures { IfOk result (λ closed. (closed ≡ true) ↔ Applied x.now after.now id) }
{
    let pack = package_of(alloc, x, id)?;
    let found = reach(alloc, x, &pack, &Ranges::new(alloc))?;
    match first_missing(found.items(), after) {
        Some(_missing) => Ok(false),
        None => Ok(true),
    }
}

/// All effects of an effect's transaction.
pub fn package_of(alloc: Global, x: &Execution, id: u32) -> Result<IdSet, NoMemory>
    requires first { 1 ≤ id }
    requires last { id ≤ length x.now }
    ensures package { IfOk result (IsPackage x.now) }
    ensures has { IfOk result (λ pack. Has pack id) }
{
    let mut pack = IdSet::new(alloc);
    for k in 0..x.len() {
        add_member(x, id, k + 1, &mut pack)?;
    }
    Ok(pack)
}

fn add_member(x: &Execution, id: u32, other: u32, pack: &mut IdSet) -> Result<(), NoMemory>
    requires first { 1 ≤ id }
    requires last { id ≤ length x.now }
    requires first_other { 1 ≤ other }
    requires last_other { other ≤ length x.now }
    ensures { OnOk result
        ((a : ℕ) → has_id pack.new a
        ≡ (has_id pack.old a || (nat_eq other a && sametxn x.now id other))) }
{
    if is_same_txn(x, id, other) {
        insert_id(pack, other)
    } else {
        Ok(())
    }
}

fn insert_id(ids: &mut IdSet, id: u32) -> Result<(), NoMemory>
    ensures { OnOk result ((a : ℕ) → has_id ids.new a ≡ (nat_eq id a || has_id ids.old a)) }
{
    ids.insert(id)?;
    Ok(())
}

/// The first of the ids that the others lack.
pub(crate) fn first_missing(ids: &[u32], others: &IdSet) -> Option<u32>
    requires { IsAscending ids.now }
    ensures { IsFirstMissing ids.now others.now result }
{
    for id in ids {
        if !others.has(*id) {
            return Some(*id);
        }
    }
    None
}

/// Those of the ids that the others lack.
pub(crate) fn without(alloc: Global, ids: &[u32], others: &IdSet) -> Result<IdSet, NoMemory>
    ensures lacks { IfOk result
        (λ rest. (a : ℕ) → has_id rest a ≡ (has_id ids.now a && not (has_id others.now a))) }
    ensures ascending { IfOk result IsAscending }
{
    let mut rest = IdSet::new(alloc);
    for id in ids {
        insert_missing(&mut rest, *id, others)?;
    }
    Ok(rest)
}

fn insert_missing(rest: &mut IdSet, id: u32, others: &IdSet) -> Result<(), NoMemory>
    requires { IsAscending rest.old }
    ensures ascending { IsAscending rest.new }
    ensures added { OnOk result
        ((a : ℕ) → has_id rest.new a
        ≡ (has_id rest.old a || (nat_eq id a && not (has_id others.now id)))) }
{
    if others.has(id) {
        return Ok(());
    }
    rest.insert(id)?;
    Ok(())
}
