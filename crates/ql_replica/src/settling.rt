ghost use Rattle.std.specs.Prelude.{◌≡◌, ◌≤◌, ◌≢◌, ℕ, false, Some, length, slice_index};
ghost use Rattle.std.specs.Bool.{OnTrue, OnFalse};
ghost use Rattle.ql_base.specs.IdLists.{has_id};
ghost use Rattle.ql_holder.specs.Closed.{Has};
ghost use Rattle.ql_ranges.specs.Ranges.{ids_of};
ghost use Rattle.ql_replica.specs.declared.waiting.Waiting.{Waiting};
ghost use Rattle.ql_replica.specs.Progress.{is_applied, moved, settled};
ghost use Rattle.slab.specs.Slab.{HasRoomFor, get};

use crate::waiting::Waiting;
use ql_base::IdSet;
use ql_ranges::Ranges;
use slab::Slab;

/// Removes each waiting package that is applied, and makes each other one watch the id at its key.
pub(crate) fn settle(waiting: &mut Slab<Waiting>, applied: &Ranges, watches: &Vec<u32>)
    requires { length waiting.old.slots ≤ length watches.now.items }
    ensures slots { (key : ℕ)
        → get waiting.new key
        ≡ settled (ids_of applied.now) (slice_index watches.now.items key) (get waiting.old key) }
    ensures room { HasRoomFor waiting.old 1 → HasRoomFor waiting.new 1 }
{
    for key in 0..watches.len() {
        settle_slot(waiting, key, applied, watches[key]);
    }
}

fn settle_slot(waiting: &mut Slab<Waiting>, key: usize, applied: &Ranges, watch: u32)
    ensures slot { get waiting.new key ≡ settled (ids_of applied.now) watch (get waiting.old key) }
    ensures others { (other : ℕ) → other ≢ key → get waiting.new other ≡ get waiting.old other }
    ensures room { HasRoomFor waiting.old 1 → HasRoomFor waiting.new 1 }
{
    if let Some(held) = waiting.try_remove(key) {
        if !is_applied(&held.pack, applied) {
            waiting.insert_reserved(Waiting {
                pack: held.pack,
                watched: watch,
            });
        }
    }
}

// Whether the first effect of a package is applied.
fn is_applied(pack: &IdSet, applied: &Ranges) -> bool
    ensures { result ≡ is_applied (ids_of applied.now) pack.now }
{
    match pack.items().first() {
        Some(id) => applied.has(*id),
        None => false,
    }
}

/// Makes each waiting package that watches an id of the package that arrived watch another id.
pub(crate) fn move_watches(waiting: &mut Slab<Waiting>, pack: &IdSet, missing: u32)
    ensures slots { (key : ℕ) → get waiting.new key ≡ moved pack.now missing (get waiting.old key) }
    ensures room { HasRoomFor waiting.old 1 → HasRoomFor waiting.new 1 }
{
    for key in 0..waiting.capacity() {
        move_watch(waiting, key, pack, missing);
    }
}

fn move_watch(waiting: &mut Slab<Waiting>, key: usize, pack: &IdSet, missing: u32)
    ensures slot { get waiting.new key ≡ moved pack.now missing (get waiting.old key) }
    ensures others { (other : ℕ) → other ≢ key → get waiting.new other ≡ get waiting.old other }
    ensures room { HasRoomFor waiting.old 1 → HasRoomFor waiting.new 1 }
{
    if let Some(held) = waiting.get_mut(key) {
        if pack.has(held.watched) {
            held.watched = missing;
        }
    }
}

/// Whether a waiting package watches an id of the package that arrived.
pub(crate) fn is_watched(waiting: &Slab<Waiting>, pack: &IdSet) -> bool
    ensures watched { OnTrue result
        ((key : ℕ) × (w : Waiting) × (get waiting.now key ≡ Some w) × Has pack.now w.watched) }
    ensures none { OnFalse result
        ((key : ℕ) (w : Waiting) → get waiting.now key ≡ Some w
        → has_id pack.now w.watched ≡ false) }
{
    for key in 0..waiting.capacity() {
        if let Some(held) = waiting.get(key) {
            if pack.has(held.watched) {
                return true;
            }
        }
    }
    false
}
