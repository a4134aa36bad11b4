ghost use Rattle.std.specs.Prelude.{◌≡◌, ◌++◌, IfOk, map};
ghost use Rattle.ql_typing.specs.Kinds.{kind_in};
ghost use Rattle.ql_typing.specs.Tables.{FindsKinds};

use crate::named::{Kinded, Named};
use indexmap::IndexMap;
use ql_base::{NoMemory, Word};
use ql_lang::Kind;
use std::alloc::Global;
use std::marker::Model;

/// A name in scope, with its kind.
#[derive(Clone, Copy)]
pub struct Known {
    pub word: Word,
    pub kind: Kind,
}

/// Names with their kinds, seen as their list. If a name is there twice, its first kind counts.
pub struct Table {
    known: Vec<Known>,
    kinds: IndexMap<Word, Kind>,
}

// Written out, so that a crate above proves one call for it.
impl Drop for Table {
    fn drop(self) {
        let Table { known: _, kinds: _ } = self;
    }
}

impl Model for Table {
    ghost use Rattle.std.specs.Prelude.{List};
    ghost use Rattle.ql_typing.specs.declared.scope.Known.{Known};

    ghost Value = { List Known };

    ghost use Rattle.ql_typing.specs.Tables.{FindsKinds};

    ghost view = { λ table. table.known.items };

    ghost invariant = { λ table. FindsKinds table.kinds table.known.items };
}

impl Table {
    /// The names of items with their kinds.
    pub(crate) fn of<T: Kinded>(alloc: Global, items: &[T]) -> Result<Table, NoMemory>
        ensures { IfOk result
            (λ table. table
            ≡ map (λ x. record { word = (T.named x).word; kind = T.kinded x }) items.now) }
    {
        let known = list_kinds(alloc, items)?;
        let kinds = index_kinds(alloc, known.as_slice())?;
        Ok(Table { known, kinds })
    }

    /// The kind of a name.
    pub(crate) fn find(&self, word: &Word) -> Option<Kind>
        ensures { result ≡ kind_in self.now word.now }
    {
        self.kinds.get(word).copied()
    }
}

fn list_kinds<T: Kinded>(alloc: Global, items: &[T]) -> Result<Vec<Known>, NoMemory>
    ensures { IfOk result
        (λ known. known.items
        ≡ map (λ x. record { word = (T.named x).word; kind = T.kinded x }) items.now) }
{
    let mut known = Vec::with_capacity(alloc, items.len())?;
    for item in items {
        known.push(Known {
            word: item.name().word,
            kind: item.kind(),
        })?;
    }
    Ok(known)
}

/// The kinds of names. They are inserted from the last to the first, so that a name's first kind stays.
fn index_kinds(alloc: Global, known: &[Known]) -> Result<IndexMap<Word, Kind>, NoMemory>
    ensures { IfOk result (λ kinds. FindsKinds kinds known.now) }
{
    let mut kinds = IndexMap::new(alloc);
    for k in 0..known.len() {
        let last = &known[known.len() - 1 - k];
        kinds.insert(last.word, last.kind)?;
    }
    Ok(kinds)
}

/// The names in scope: those of the fields, and others after them.
#[derive(Drop)]
pub struct Scope<'a> {
    fields: &'a Table,
    others: Table,
}

impl<'a> Model for Scope<'a> {
    ghost use Rattle.std.specs.Prelude.{List, ◌++◌};
    ghost use Rattle.ql_typing.specs.declared.scope.Known.{Known};

    ghost Value = { List Known };

    ghost view = { λ scope. scope.fields.now ++ scope.others };
}

impl<'a> Scope<'a> {
    pub(crate) fn over(fields: &'a Table, others: Table) -> Scope<'a>
        ensures { result ≡ fields.now ++ others }
    {
        Scope { fields, others }
    }

    /// The kind of a name in scope.
    pub(crate) fn find(&self, word: &Word) -> Option<Kind>
        ensures { result ≡ kind_in self.now word.now }
    {
        match self.fields.find(word) {
            Some(kind) => Some(kind),
            None => self.others.find(word),
        }
    }
}
