// The clauses that watch one literal, by their numbers.
ghost use Rattle.std.specs.Prelude.{◌≡◌, ◌≢◌, ℕ, ◌+◌, ◌<◌, ◌≤◌, ◌^◌, ◌++◌, ◌∷◌, [], length, MatchOption, OnErr, OnOk, slice_index, take};
ghost use Rattle.ql_sat.specs.Watch.{count_of};

use ql_base::NoMemory;
use std::alloc::Global;
use std::marker::Model;

#[derive(Drop)]
pub(crate) struct Watchers {
    clauses: Vec<usize>,
}

impl Model for Watchers {
    ghost use Rattle.std.specs.Prelude.{List, ℕ};

    ghost Value = { List ℕ };

    ghost view = { λ w. w.clauses.items };
}

impl Watchers {
    pub fn new(alloc: Global) -> Watchers
        ensures { result ≡ [] }
    {
        Watchers {
            clauses: Vec::new(alloc),
        }
    }

    // The clause at an index of the list.
    pub fn get(&self, at: usize) -> Option<usize>
        ensures { MatchOption result (length self.now ≤ at)
            (λ clause. (at < length self.now) × (clause ≡ slice_index self.now at)
            × (at + 1 < 2 ^ 64)) }
    {
        if at < self.clauses.len() {
            Some(self.clauses[at])
        } else {
            None
        }
    }

    pub fn push(&mut self, clause: usize) -> Result<(), NoMemory>
        ensures pushed { OnOk result (self.new ≡ self.old ++ clause ∷ []) }
        ensures err { OnErr result (self.new ≡ self.old) }
    {
        self.clauses.push(clause)?;
        Ok(())
    }

    // Removes the clause at an index; the last clause moves there.
    pub fn take_out(&mut self, at: usize)
        requires { at < length self.old }
        ensures len { length self.new + 1 ≡ length self.old }
        ensures front { take at self.new ≡ take at self.old }
        ensures others { (k : ℕ) → k ≢ slice_index self.old at
            → count_of k self.new ≡ count_of k self.old }
    {
        self.clauses.swap_remove(at);
    }
}
