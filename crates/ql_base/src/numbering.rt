ghost use Rattle.std.specs.Prelude.{◌≡◌, ◌+◌, ◌<◌, ◌≤◌, ◌^◌, [], Some, is_some, length, take, IfOk, OnErr, slice_get};
ghost use Rattle.std.specs.List.{IsDistinct};
ghost use Rattle.std.specs.Str.{bytes_eq};
ghost use Rattle.ql_base.specs.Numbering.{has_name, place, with_name};

use crate::no_memory::NoMemory;
use crate::word::Word;
use indexmap::IndexSet;
use std::alloc::Global;
use std::marker::Model;

/// Distinct names, numbered from 0 in the order of their first occurrence, seen as their list.
pub struct Names {
    words: IndexSet<Word>,
}

// Written out, so that a crate above proves one call for it.
impl Drop for Names {
    fn drop(self) {
        let Names { words: _ } = self;
    }
}

impl Model for Names {
    ghost use Rattle.std.specs.Prelude.{List, ℕ, length, ◌<◌, ◌^◌};
    ghost use Rattle.ql_base.specs.Numbering.{AreNames};

    ghost Value = { List (List ℕ) };

    ghost view = { λ names. names.words.keys };

    ghost invariant = { λ names. AreNames names.words.keys };
}

impl Names {
    /// No names.
    pub fn new(alloc: Global) -> Names
        ensures { result ≡ [] }
    {
        Names {
            words: IndexSet::new(alloc),
        }
    }

    /// How many names there are.
    pub fn len(&self) -> u32
        ensures count { result ≡ length self.now }
        ensures distinct { IsDistinct bytes_eq self.now }
    {
        self.words.len() as u32
    }

    /// The number of the name `w`, which is added at the end if it is new. After an error nothing is added.
    pub fn number(&mut self, w: &[u8]) -> Result<u32, NoMemory>
        requires some { 1 ≤ length w.now }
        requires few { length w.now ≤ 32 }
        requires room { length self.old + 1 < 2 ^ 32 }
        ensures names { IfOk result (λ _. self.new ≡ with_name self.old w.now) }
        ensures numbered { IfOk result (λ k. place self.new w.now ≡ Some k) }
        ensures refused { OnErr result (self.new ≡ self.old) }
    {
        let (k, _) = self.words.insert_full(Word::of(w))?;
        Ok(k as u32)
    }

    /// The number of the name `w`; `None` if it isn't there.
    pub fn find(&self, w: &[u8]) -> Option<u32>
        ensures numbered { result ≡ place self.now w.now }
        ensures known { is_some result ≡ has_name self.now w.now }
    {
        let words = &self.words;
        if w.is_empty() || w.len() > 32 {
            return None;
        }
        let k = words.get_index_of(&Word::of(w))?;
        Some(k as u32)
    }

    /// The name with the number `k`.
    pub fn name(&self, k: u32) -> &Word
        requires { k < length self.now }
        ensures { slice_get self.now k ≡ Some result.now }
    {
        &self.words.as_slice()[k as usize]
    }

    /// Keeps only the first `len` names.
    pub fn truncate(&mut self, len: u32)
        ensures { self.new ≡ take len self.old }
    {
        self.words.truncate(len as usize);
    }
}
