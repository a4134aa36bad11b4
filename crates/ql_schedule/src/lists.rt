ghost use Rattle.std.specs.Prelude.{◌≡◌};

use crate::argument::Argument;
use ql_base::Word;
use std::marker::Model;

/// A list of arguments.
#[derive(Drop)]
pub(crate) struct Arguments {
    items: Vec<Argument>,
}

impl Model for Arguments {
    ghost use Rattle.std.specs.Prelude.{List};
    ghost use Rattle.ql_schedule.specs.declared.argument.Argument.{Argument};

    ghost Value = { List Argument };

    ghost view = { λ a. a.items.items };
}

impl Arguments {
    pub(crate) fn of(items: Vec<Argument>) -> Arguments
        ensures { result ≡ items.items }
    {
        Arguments { items }
    }

    pub(crate) fn items(&self) -> &[Argument]
        ensures { result.now ≡ self.now }
    {
        &self.items
    }

    pub(crate) fn into_items(self) -> Vec<Argument>
        ensures { result.items ≡ self }
    {
        self.items
    }
}

/// A list of words.
#[derive(Drop)]
pub(crate) struct Words {
    items: Vec<Word>,
}

impl Model for Words {
    ghost use Rattle.std.specs.Prelude.{List, ℕ};

    ghost Value = { List (List ℕ) };

    ghost view = { λ w. w.items.items };
}

impl Words {
    pub(crate) fn of(items: Vec<Word>) -> Words
        ensures { result ≡ items.items }
    {
        Words { items }
    }

    pub(crate) fn items(&self) -> &[Word]
        ensures { result.now ≡ self.now }
    {
        &self.items
    }
}

/// A list of numbers.
#[derive(Drop)]
pub(crate) struct Numbers {
    items: Vec<u64>,
}

impl Model for Numbers {
    ghost use Rattle.std.specs.Prelude.{List, ℕ};

    ghost Value = { List ℕ };

    ghost view = { λ n. n.items.items };
}

impl Numbers {
    pub(crate) fn of(items: Vec<u64>) -> Numbers
        ensures { result ≡ items.items }
    {
        Numbers { items }
    }

    pub(crate) fn items(&self) -> &[u64]
        ensures { result.now ≡ self.now }
    {
        &self.items
    }
}
