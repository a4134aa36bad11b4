ghost use Rattle.std.specs.Prelude.{◌≡◌, ◌++◌};
ghost use Rattle.std.specs.Option.{option_copied};
ghost use Rattle.ql_eval.specs.Evaluation.{value_in};

use crate::emitted::Emitted;
use crate::env::find;
use ql_base::Word;
use ql_value::Value;
use std::marker::Model;

/// The names in scope with their values, and after them emitted values under their names. All are borrowed.
#[derive(Drop)]
pub(crate) struct Scope<'a> {
    pairs: &'a [(Word, Value)],
    emitted: Emitted<'a>,
}

impl<'a> Model for Scope<'a> {
    ghost use Rattle.std.specs.Prelude.{List, ℕ, ◌++◌};
    ghost use Rattle.ql_value.specs.declared.value.Value.{Value as OneValue};

    ghost Value = { List (List ℕ × OneValue) };

    ghost view = { λ s. s.pairs.now ++ s.emitted };
}

impl<'a> Scope<'a> {
    /// These names with their values, and nothing emitted.
    pub(crate) fn of(pairs: &'a [(Word, Value)]) -> Scope<'a>
        ensures { result ≡ pairs.now }
    {
        Scope::with(pairs, Emitted::none())
    }

    /// These names with their values, and emitted values.
    pub(crate) fn with(pairs: &'a [(Word, Value)], emitted: Emitted<'a>) -> Scope<'a>
        ensures { result ≡ pairs.now ++ emitted.entry }
    {
        Scope { pairs, emitted }
    }

    /// The value of a name.
    pub(crate) fn find(&self, word: &Word) -> Option<&Value>
        ensures { option_copied result ≡ value_in self.now word.now }
    {
        match find(self.pairs, word) {
            Some(value) => Some(value),
            None => self.emitted.find(word),
        }
    }
}
