ghost use Rattle.std.specs.Prelude.{◌≡◌};

use ql_base::{EffId, Word};
use ql_exec::Execution;
use ql_lang::Formula;
use std::marker::Model;

/// Words in order.
pub struct Words {
    items: Vec<Word>,
}

// Written out, so that a crate above proves one call for it.
impl Drop for Words {
    fn drop(self) {
        let Words { items: _ } = self;
    }
}

impl Model for Words {
    ghost use Rattle.std.specs.Prelude.{List, ℕ};

    ghost Value = { List (List ℕ) };

    ghost view = { λ words. words.items.items };
}

impl Words {
    pub fn of(items: Vec<Word>) -> Words
        ensures { result ≡ items.items }
    {
        Words { items }
    }

    pub fn items(&self) -> &[Word]
        ensures { result.now ≡ self.now }
    {
        self.items.as_slice()
    }

    pub fn into_items(self) -> Vec<Word>
        ensures { result.items ≡ self }
    {
        let Words { items } = self;
        items
    }
}

/// The question of a holds file: whether the formula is true in the execution, with the effect `cur`
/// as the current one.
pub struct Holding {
    pub formula: Formula,
    /// The names of the formula's variables, in order.
    pub names: Words,
    pub cur: EffId,
    pub execution: Execution,
}

// Written out, so that a crate above proves one call for it.
impl Drop for Holding {
    fn drop(self) {
        let Holding {
            formula: _,
            names: _,
            cur: _,
            execution: _,
        } = self;
    }
}
