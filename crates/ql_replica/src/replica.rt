ghost use Rattle.std.specs.Prelude.{◌≡◌, List, IfOk, IfSome, OnOk};
ghost use Rattle.ql_exec.specs.declared.effect.Effect.{Effect};
ghost use Rattle.ql_holder.specs.Closed.{Reaches};
ghost use Rattle.ql_holder.specs.Needs.{Needs};
ghost use Rattle.ql_ranges.specs.Ranges.{ids_of};
ghost use Rattle.ql_replica.specs.Waiting.{FitsReplica, HoldSame, IsWatch, IsWatchIn, IsWithSlot, held_by};
ghost use Rattle.slab.specs.Slab.{get};

use crate::receiving::receive_in;
use crate::waiting::Waiting;
use ql_base::{EffId, IdSet, NoMemory};
use ql_exec::Execution;
use ql_holder::{Arrival, Holder};
use ql_ranges::Ranges;
use slab::Slab;
use std::alloc::Global;
use std::marker::Model;

/// A holder that keeps what was received and what is applied as ranges, and for each waiting package
/// an id that it needs and that hasn't been received. A receipt walks the package that arrived and those that
/// watched one of its ids.
pub struct Replica {
    received: Ranges,
    applied: Ranges,
    waiting: Slab<Waiting>,
    alloc: Global,
}

// Written out, so that a crate above proves one call for it.
impl Drop for Replica {
    fn drop(self) {
        let Replica {
            received: _,
            applied: _,
            waiting: _,
            alloc: _,
        } = self;
    }
}

impl Model for Replica {
    ghost use Rattle.ql_ranges.specs.Ranges.{ids_of};
    ghost use Rattle.slab.specs.Slab.{get};
    ghost use Rattle.ql_replica.specs.Waiting.{Kept, KeepsWaiting};

    ghost Value = { Kept };

    ghost view = { λ r. record { received = r.received; applied = r.applied; slots = r.waiting.slots } };

    ghost invariant = { λ r. KeepsWaiting (ids_of r.received) (ids_of r.applied) (get r.waiting) };
}

impl Replica {
    /// What was received.
    pub fn ranges(&self) -> &Ranges
        ensures { result.now ≡ self.now.received }
    {
        &self.received
    }

    /// The id that is watched for an effect that waits. It hasn't been received, and in each execution
    /// that the replica fits, the effect needs it, directly or through others. None for an effect that
    /// hasn't been received, or is applied.
    pub fn watch_of(&self, e: EffId) -> Option<EffId>
        ensures watch { IsWatch (ids_of self.now.received) (ids_of self.now.applied) e.0 result }
        ensures needed { IfSome result
            (λ watched. (x : List Effect)
            → FitsReplica (ids_of self.now.received) (ids_of self.now.applied)
            (held_by self.now.slots) x → Reaches (Needs x) e.0 watched.0) }
    {
        watch_in(&self.waiting, e.0)
    }
}

impl Holder for Replica {
    ghost use Rattle.ql_ranges.specs.Ranges.{ids_of};
    ghost use Rattle.ql_replica.specs.Waiting.{FitsReplica, held_by};
    ghost use Rattle.ql_replica.specs.ReplicaLaws.{fits-more};

    ghost received = { λ r. ids_of r.received };

    ghost fits = { λ r x. FitsReplica (ids_of r.received) (ids_of r.applied) (held_by r.slots) x };

    fn empty(alloc: Global) -> Self {
        Replica {
            received: Ranges::new(alloc),
            applied: Ranges::new(alloc),
            waiting: Slab::new(alloc),
            alloc,
        }
    }

    fn receive(&mut self, pack: &IdSet, x: &Execution) -> Result<Arrival, NoMemory> {
        receive_in(
            self.alloc,
            &mut self.received,
            &mut self.applied,
            &mut self.waiting,
            pack,
            x,
        )
    }

    fn has(&self, e: EffId) -> bool {
        self.received.has(e.0)
    }

    fn leading(&self, ids: &[u32]) -> usize {
        self.received.leading(ids)
    }

    fn applied(&self, e: EffId) -> bool {
        self.applied.has(e.0)
    }

    fn copy(&self) -> Result<Self, NoMemory> {
        Ok(Replica {
            received: self.received.copy()?,
            applied: self.applied.copy()?,
            waiting: copy_waiting(self.alloc, &self.waiting)?,
            alloc: self.alloc,
        })
    }

    ghost fits_ascending = { λ r x fits. fits.ascending };

    ghost fits_whole = { λ r x fits. fits.whole };

    ghost fits_more = { λ r x more law fits alone. fits-more (ids_of r.received) (ids_of r.applied) (held_by r.slots) x more law fits alone };
}

// The id that is watched by the waiting package with this effect.
fn watch_in(waiting: &Slab<Waiting>, e: u32) -> Option<EffId>
    ensures { IsWatchIn (get waiting.now) e result }
{
    for key in 0..waiting.capacity() {
        if let Some(held) = waiting.get(key) {
            if held.pack.has(e) {
                return Some(EffId(held.watched));
            }
        }
    }
    None
}

// The same waiting packages, each with its watch.
fn copy_waiting(alloc: Global, waiting: &Slab<Waiting>) -> Result<Slab<Waiting>, NoMemory>
    ensures { IfOk result (λ copied. HoldSame (get copied) (get waiting.now)) }
{
    let mut copied = Slab::new(alloc);
    for key in 0..waiting.capacity() {
        copy_slot(&mut copied, waiting, key)?;
    }
    Ok(copied)
}

fn copy_slot(
    copied: &mut Slab<Waiting>,
    waiting: &Slab<Waiting>,
    key: usize,
) -> Result<(), NoMemory>
    ensures { OnOk result (IsWithSlot (get copied.old) (get waiting.now key) (get copied.new)) }
{
    match waiting.get(key) {
        Some(held) => {
            let pack = held.pack.copy()?;
            copied.insert(Waiting {
                pack,
                watched: held.watched,
            })?;
            Ok(())
        }
        None => Ok(()),
    }
}
