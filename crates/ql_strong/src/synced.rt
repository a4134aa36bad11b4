ghost use Rattle.std.specs.Prelude.{◌≡◌, ◌<◌, ◌≤◌, All, length, map, replicate, IfOk, OnOk};
ghost use Rattle.ql_base.specs.IdLists.{IsAscending};
ghost use Rattle.ql_holder.specs.Needs.{AreWhole};
ghost use Rattle.ql_machine.specs.Changes.{received_by_all};
ghost use Rattle.ql_strong.specs.Within.{AreAmong, HasReceived};

use crate::package::package_of;
use ql_base::{EffId, IdSet, NoMemory};
use ql_exec::Execution;
use ql_holder::Holder;
use std::alloc::Global;

/// For each holder a new one that has received exactly the committed effects.
///
/// A holder is copied and receives what it lacks; `leading` passes over what it has received. A transaction that
/// it lacks takes one pass over the execution.
pub fn sync<H: Holder>(
    alloc: Global,
    holders: &[H],
    x: &Execution,
    committed: &IdSet,
) -> Result<Vec<H>, NoMemory>
    requires fit { All (λ h. H.fits h x.now) holders.now }
    requires within { All (λ h. AreAmong (H.received h) committed.now) holders.now }
    requires whole { AreWhole x.now committed.now }
    ensures fit { IfOk result (λ synced. All (λ h. H.fits h x.now) synced.items) }
    ensures exact { IfOk result
        (λ synced. map H.received synced.items ≡ replicate (length holders.now) committed.now) }
    ensures all { IfOk result
        (λ synced. map H.received synced.items
        ≡ received_by_all (map H.received holders.now) committed.now) }
{
    let ids = committed.items();
    let mut synced = Vec::with_capacity(alloc, holders.len())?;
    for holder in holders {
        synced.push(made_whole(alloc, holder, x, ids)?)?;
    }
    Ok(synced)
}

/// A holder that has received what another did, and everything else of some whole transactions.
pub(crate) fn made_whole<H: Holder>(
    alloc: Global,
    holder: &H,
    x: &Execution,
    committed: &[u32],
) -> Result<H, NoMemory>
    requires fits { H.fits holder.now x.now }
    requires within { AreAmong (H.received holder.now) committed.now }
    requires whole { AreWhole x.now committed.now }
    requires ascending { IsAscending committed.now }
    ensures fits { IfOk result (λ whole. H.fits whole x.now) }
    ensures received { IfOk result (λ whole. H.received whole ≡ committed.now) }
{
    let mut whole = holder.copy()?;
    let mut count = whole.leading(committed);
    while count < committed.len() {
        receive_with(alloc, &mut whole, x, EffId(committed[count]))?;
        count += whole.leading(&committed[count..]);
    }
    Ok(whole)
}

// Receives an effect with the others of its transaction.
fn receive_with<H: Holder>(
    alloc: Global,
    holder: &mut H,
    x: &Execution,
    id: EffId,
) -> Result<(), NoMemory>
    requires fits { H.fits holder.old x.now }
    requires first { 1 ≤ id.0 }
    requires last { id.0 ≤ length x.now }
    ensures fits { H.fits holder.new x.now }
    ensures received { OnOk result
        (HasReceived x.now (H.received holder.old) (H.received holder.new) id.0) }
{
    let package = package_of(alloc, x, id)?;
    holder.receive(&package, x)?;
    Ok(())
}
