ghost use Rattle.std.specs.Prelude.{◌≡◌, ◌++◌, [], IfOk};
ghost use Rattle.std.specs.Option.{option_copied};
ghost use Rattle.ql_eval.specs.Evaluation.{value_in};
ghost use Rattle.ql_eval.specs.Folds.{bind_word, under};

use crate::env::Env;
use ql_base::{NoMemory, Word};
use ql_lang::Bind;
use ql_value::{Value, copy};
use std::alloc::Global;
use std::marker::Model;

/// Emitted values under their names. All are borrowed.
#[derive(Drop)]
pub(crate) struct Emitted<'a> {
    binds: &'a [Bind],
    values: &'a [Value],
}

impl<'a> Model for Emitted<'a> {
    ghost use Rattle.std.specs.Prelude.{List, ℕ};
    ghost use Rattle.ql_value.specs.declared.value.Value.{Value as OneValue};
    ghost use Rattle.ql_eval.specs.Folds.{bind_word, under};

    ghost Value = { List (List ℕ × OneValue) };

    ghost view = { λ e. under bind_word e.binds.now e.values.now };
}

impl<'a> Emitted<'a> {
    /// These values under these names, as long as there are both.
    pub(crate) fn of(binds: &'a [Bind], values: &'a [Value]) -> Emitted<'a>
        ensures { result ≡ under bind_word binds.now values.now }
    {
        Emitted { binds, values }
    }

    /// Nothing emitted.
    pub(crate) fn none() -> Emitted<'a>
        ensures { result ≡ [] }
    {
        Emitted {
            binds: &[],
            values: &[],
        }
    }

    /// The same, borrowed once more.
    pub(crate) fn again(&self) -> Emitted<'a>
        ensures { result ≡ self.now }
    {
        Emitted::of(self.binds, self.values)
    }

    /// The value of a name.
    pub(crate) fn find(&self, word: &Word) -> Option<&'a Value>
        ensures { option_copied result ≡ value_in self.now word.now }
    {
        find_emitted(self.binds, self.values, word)
    }

    /// The names in scope, with these added.
    pub(crate) fn added_to(&self, alloc: Global, env: Env) -> Result<Env, NoMemory>
        ensures { IfOk result (λ whole. whole ≡ env ++ self.now) }
    {
        with_emitted(alloc, env, self.binds, self.values)
    }
}

fn find_emitted<'a>(binds: &[Bind], emitted: &'a [Value], word: &Word) -> Option<&'a Value>
    ensures { option_copied result ≡ value_in (under bind_word binds.now emitted.now) word.now }
{
    for k in 0..binds.len().min(emitted.len()) {
        if binds[k].name.word.bytes() == word.bytes() {
            return Some(&emitted[k]);
        }
    }
    None
}

fn with_emitted(alloc: Global, env: Env, binds: &[Bind], values: &[Value]) -> Result<Env, NoMemory>
    ensures { IfOk result (λ whole. whole ≡ env ++ under bind_word binds.now values.now) }
{
    let mut env = env;
    for k in 0..binds.len().min(values.len()) {
        env.push(binds[k].name.word, copy(alloc, &values[k])?)?;
    }
    Ok(env)
}
