ghost use Rattle.std.specs.Prelude.{◌≡◌, ◌++◌, IfOk, take};
ghost use Rattle.ql_eval.specs.Folds.{assigned};

use crate::emitted::Emitted;
use crate::env::Env;
use crate::scope::Scope;
use ql_base::{NoMemory, Word};
use ql_value::Value;
use std::alloc::Global;
use std::marker::Model;

/// A state while statements run, and after it emitted values under their names. These are borrowed until a statement
/// assigns to one of them.
#[derive(Drop)]
pub(crate) struct Running<'a> {
    state: Env,
    emitted: Emitted<'a>,
}

impl<'a> Model for Running<'a> {
    ghost use Rattle.std.specs.Prelude.{List, ℕ, ◌++◌};
    ghost use Rattle.ql_value.specs.declared.value.Value.{Value as OneValue};

    ghost Value = { List (List ℕ × OneValue) };

    ghost view = { λ r. r.state ++ r.emitted };
}

impl<'a> Running<'a> {
    /// A state, and emitted values.
    pub(crate) fn of(state: Env, emitted: Emitted<'a>) -> Running<'a>
        ensures { result ≡ state ++ emitted.entry }
    {
        Running { state, emitted }
    }

    /// What is in scope.
    pub(crate) fn scope(&self) -> Scope<'_>
        ensures { result ≡ self.now }
    {
        Scope::with(self.state.items(), self.emitted.again())
    }

    /// The same with another value of a name.
    pub(crate) fn assigned(
        self,
        alloc: Global,
        word: &Word,
        value: Value,
    ) -> Result<Running<'a>, NoMemory>
        ensures { IfOk result (λ after. after ≡ assigned self.entry word.now value) }
    {
        let mut state = self.state;
        let index = state.index_of(word);
        if index < state.len() {
            state.put(index, *word, value);
            return Ok(Running::of(state, self.emitted));
        }
        // Typing refuses a program that comes here: a statement assigns to a field.
        let mut state = self.emitted.added_to(alloc, state)?;
        state.assign(word, value);
        Ok(Running::of(state, Emitted::none()))
    }

    /// The first `len` names with their values.
    pub(crate) fn first(self, alloc: Global, len: usize) -> Result<Env, NoMemory>
        ensures { IfOk result (λ kept. kept ≡ take len self.entry) }
    {
        let emitted = self.emitted;
        let state = self.state;
        if len <= state.len() {
            return Ok(first_of(state, len));
        }
        let whole = emitted.added_to(alloc, state)?;
        Ok(first_of(whole, len))
    }
}

fn first_of(env: Env, len: usize) -> Env
    ensures { result ≡ take len env }
{
    let mut env = env;
    env.truncate(len);
    env
}
