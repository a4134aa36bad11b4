ghost use Rattle.std.specs.Prelude.{◌≡◌, ◌==◌, ◌<◌, ◌≤◌, List, [], ℕ, length, insert, not, true, false, slice_index, IfOk, IfErr, OnOk, OnErr};
ghost use Rattle.ql_base.specs.IdLists.{IsAscending, has_id, with_id, union_of};

use crate::no_memory::NoMemory;
use std::alloc::Global;
use std::marker::Model;

/// A set of ids, seen as their strictly ascending list.
///
/// An id above all others is added in constant time.
pub struct IdSet {
    ids: Vec<u32>,
}

// Written out, so that a crate above proves one call for it.
impl Drop for IdSet {
    fn drop(self) {
        let IdSet { ids: _ } = self;
    }
}

impl Model for IdSet {
    ghost Value = { List ℕ };

    ghost view = { λ set. set.ids.items };

    ghost invariant = { λ set. IsAscending set.ids.items };
}

impl IdSet {
    pub fn new(alloc: Global) -> IdSet
        ensures { result ≡ [] }
    {
        IdSet {
            ids: Vec::new(alloc),
        }
    }

    pub fn len(&self) -> usize
        ensures length { result ≡ length self.now }
        ensures ascending { IsAscending self.now }
    {
        self.ids.len()
    }

    pub fn is_empty(&self) -> bool
        ensures { result ≡ (length self.now == 0) }
    {
        self.ids.is_empty()
    }

    /// The id at the index `k` in ascending order.
    pub fn get(&self, k: usize) -> u32
        requires { k < length self.now }
        ensures { result ≡ slice_index self.now k }
    {
        self.ids[k]
    }

    /// The ids in ascending order.
    pub fn items(&self) -> &[u32]
        ensures same { result.now ≡ self.now }
        ensures ascending { IsAscending self.now }
    {
        &self.ids
    }

    pub fn has(&self, id: u32) -> bool
        ensures { result ≡ has_id self.now id }
    {
        place_of(&self.ids, id).is_ok()
    }

    /// Adds an id, and returns whether it was new. After an error the set is unchanged.
    pub fn insert(&mut self, id: u32) -> Result<bool, NoMemory>
        ensures new { IfOk result (λ new. new ≡ not (has_id self.old id)) }
        ensures added { OnOk result (self.new ≡ with_id self.old id) }
        ensures err { OnErr result (self.new ≡ self.old) }
    {
        match place_of(&self.ids, id) {
            Ok(_) => Ok(false),
            Err(at) => {
                self.ids.insert(at, id)?;
                Ok(true)
            }
        }
    }

    /// The ids that are in either set.
    pub fn union(&self, other: &IdSet) -> Result<IdSet, NoMemory>
        ensures { IfOk result (λ both. both ≡ union_of self.now other.now) }
    {
        let ids = merged(*self.ids.allocator(), &self.ids, &other.ids)?;
        Ok(IdSet { ids })
    }

    pub fn copy(&self) -> Result<IdSet, NoMemory>
        ensures { IfOk result (λ copy. copy ≡ self.now) }
    {
        let ids = Vec::from_slice(*self.ids.allocator(), &self.ids)?;
        Ok(IdSet { ids })
    }
}

// The index of an id, or the index where it belongs. The end is tried first.
fn place_of(ids: &[u32], id: u32) -> Result<usize, usize>
    requires { IsAscending ids.now }
    ensures found { OnOk result ((has_id ids.now id ≡ true) × (with_id ids.now id ≡ ids.now)) }
    ensures absent { IfErr result (λ at. (at ≤ length ids.now)
        × (has_id ids.now id ≡ false) × (with_id ids.now id ≡ insert ids.now at id)) }
{
    match ids.last() {
        Some(last) if id <= *last => ids.binary_search(&id),
        _ => Err(ids.len()),
    }
}

// The ids of both slices, each taken once.
fn merged(alloc: Global, xs: &[u32], ys: &[u32]) -> Result<Vec<u32>, NoMemory>
    requires left { IsAscending xs.now }
    requires right { IsAscending ys.now }
    ensures { IfOk result (λ both. both.items ≡ union_of xs.now ys.now) }
{
    let mut both = Vec::with_capacity(alloc, xs.len().max(ys.len()))?;
    let mut i = 0;
    let mut j = 0;
    while i < xs.len() && j < ys.len() {
        let (x, y) = (xs[i], ys[j]);
        both.push(x.min(y))?;
        i += usize::from(x <= y);
        j += usize::from(y <= x);
    }
    both.extend_from_slice(&xs[i..])?;
    both.extend_from_slice(&ys[j..])?;
    Ok(both)
}
