ghost use Rattle.std.specs.Prelude.{◌≡◌, ◌<◌, [], IfOk, IfSome, OnOk, length, not, take};
ghost use Rattle.ql_base.specs.Numbering.{has_name, place, with_name};

use indexmap::IndexSet;
use ql_base::{NoMemory, Word};
use std::alloc::Global;
use std::marker::Model;

/// Distinct words in the order of their first occurrence, seen as their list. There may be more of them than 32 bits
/// can number.
pub struct WordSet {
    words: IndexSet<Word>,
}

// Written out, so that a crate above proves one call for it.
impl Drop for WordSet {
    fn drop(self) {
        let WordSet { words: _ } = self;
    }
}

impl Model for WordSet {
    ghost use Rattle.std.specs.Prelude.{List, ℕ};

    ghost Value = { List (List ℕ) };

    ghost view = { λ set. set.words.keys };
}

impl WordSet {
    /// No words.
    pub fn new(alloc: Global) -> WordSet
        ensures { result ≡ [] }
    {
        WordSet {
            words: IndexSet::new(alloc),
        }
    }

    pub fn len(&self) -> usize
        ensures { result ≡ length self.now }
    {
        self.words.len()
    }

    pub fn has(&self, word: &Word) -> bool
        ensures { result ≡ has_name self.now word.now }
    {
        self.words.contains(word)
    }

    /// The index of a word; `None` if it isn't there.
    pub fn index_of(&self, word: &Word) -> Option<usize>
        ensures place { result ≡ place self.now word.now }
        ensures within { IfSome result (λ k. k < length self.now) }
    {
        self.words.get_index_of(word)
    }

    /// Adds a word at the end unless it is there, and returns whether it is new.
    pub fn add(&mut self, word: &Word) -> Result<bool, NoMemory>
        ensures words { OnOk result (self.new ≡ with_name self.old word.now) }
        ensures known { IfOk result (λ new. has_name self.old word.now ≡ not new) }
    {
        Ok(self.words.insert(*word)?)
    }

    /// Keeps only the first `len` words.
    pub fn truncate(&mut self, len: usize)
        ensures { self.new ≡ take len self.old }
    {
        self.words.truncate(len);
    }
}
