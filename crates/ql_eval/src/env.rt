ghost use Rattle.std.specs.Prelude.{◌≡◌, ◌<◌, ◌∷◌, ◌++◌, [], IfOk, OnOk, length, not, set, take};
ghost use Rattle.std.specs.List.{prefix_len};
ghost use Rattle.std.specs.Str.{bytes_eq};
ghost use Rattle.std.specs.Option.{option_copied};
ghost use Rattle.ql_eval.specs.Evaluation.{value_in};
ghost use Rattle.ql_eval.specs.Folds.{assigned};

use ql_base::{NoMemory, Word};
use ql_value::{Value, copy};
use std::alloc::Global;
use std::marker::Model;

/// Names with their values, one for each name in scope. If a name is there twice, its first value counts.
pub struct Env {
    pairs: Vec<(Word, Value)>,
}

// Written out, so that a crate above proves one call for it.
impl Drop for Env {
    fn drop(self) {
        let Env { pairs: _ } = self;
    }
}

impl Model for Env {
    ghost use Rattle.std.specs.Prelude.{List, ℕ};
    ghost use Rattle.ql_value.specs.declared.value.Value.{Value as OneValue};

    ghost Value = { List (List ℕ × OneValue) };

    ghost view = { λ env. env.pairs.items };
}

impl Env {
    /// These names with their values.
    pub fn of(pairs: Vec<(Word, Value)>) -> Env
        ensures { result ≡ pairs.items }
    {
        Env { pairs }
    }

    /// The names with their values.
    pub fn items(&self) -> &[(Word, Value)]
        ensures { result.now ≡ self.now }
    {
        &self.pairs
    }

    /// The names with their values.
    pub fn into_items(self) -> Vec<(Word, Value)>
        ensures { result.items ≡ self }
    {
        let Env { pairs } = self;
        pairs
    }

    /// Equal names with equal values.
    pub fn copy(&self, alloc: Global) -> Result<Env, NoMemory>
        ensures { IfOk result (λ copied. copied ≡ self.now) }
    {
        let mut pairs = Vec::with_capacity(alloc, self.pairs.len())?;
        for pair in &self.pairs {
            pairs.push((pair.0, copy(alloc, &pair.1)?))?;
        }
        Ok(Env { pairs })
    }
}

impl Env {
    /// The number of names.
    pub(crate) fn len(&self) -> usize
        ensures { result ≡ length self.now }
    {
        self.pairs.len()
    }

    /// Adds a name with its value at the end.
    pub(crate) fn push(&mut self, word: Word, value: Value) -> Result<(), NoMemory>
        ensures { OnOk result (self.new ≡ self.old ++ (word, value) ∷ []) }
    {
        self.pairs.push((word, value))?;
        Ok(())
    }

    /// Keeps only the first `len` names.
    pub(crate) fn truncate(&mut self, len: usize)
        ensures { self.new ≡ take len self.old }
    {
        self.pairs.truncate(len);
    }

    /// Where a name stands first, or the number of names if it isn't there.
    pub(crate) fn index_of(&self, word: &Word) -> usize
        ensures { result ≡ prefix_len (λ pair. not (bytes_eq pair.0 word.now)) self.now }
    {
        count_others(&self.pairs, word)
    }

    /// Puts a name with a value in place of another one.
    pub(crate) fn put(&mut self, index: usize, word: Word, value: Value)
        requires { index < length self.old }
        ensures { self.new ≡ set self.old index (word, value) }
    {
        self.pairs[index] = (word, value);
    }

    /// Assigns another value to a name.
    pub(crate) fn assign(&mut self, word: &Word, value: Value)
        ensures { self.new ≡ assigned self.old word.now value }
    {
        assign_in(&mut self.pairs, word, value);
    }
}

fn assign_in(pairs: &mut [(Word, Value)], word: &Word, value: Value)
    ensures { pairs.new ≡ assigned pairs.old word.now value }
{
    let index = count_others(pairs, word);
    if index < pairs.len() {
        pairs[index] = (*word, value);
    }
}

// The number of pairs before the first with this name.
fn count_others(pairs: &[(Word, Value)], word: &Word) -> usize
    ensures { result ≡ prefix_len (λ pair. not (bytes_eq pair.0 word.now)) pairs.now }
{
    pairs
        .iter()
        .take_while(|pair| pair.0.bytes() != word.bytes())
        .count()
}

/// The value of a name.
pub(crate) fn find<'a>(pairs: &'a [(Word, Value)], word: &Word) -> Option<&'a Value>
    ensures { option_copied result ≡ value_in pairs.now word.now }
{
    for pair in pairs {
        if pair.0.bytes() == word.bytes() {
            return Some(&pair.1);
        }
    }
    None
}
