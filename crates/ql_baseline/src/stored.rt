use ql_base::{NoMemory, Word};
use ql_levels::{Level, TxnLevel};
use std::alloc::Global;
use std::marker::Model;

/// A target of a stored answer, with the level that it had, or that it had none.
#[derive(Clone, Copy)]
pub enum Stored {
    Op(Word, Option<Level>),
    Txn(Word, Option<TxnLevel>),
}

/// The rule that a line of a stored answer may break.
#[derive(Clone, Copy)]
pub enum BaselineRule {
    /// Neither `classify` nor `explain` prints such a line; or the file ends without a target.
    Unexpected,
}

/// What a stored answer says, line by line.
#[derive(Drop)]
pub(crate) struct StoredList {
    items: Vec<Stored>,
}

impl Model for StoredList {
    ghost use Rattle.std.specs.Prelude.{List};
    ghost use Rattle.ql_baseline.specs.declared.stored.Stored.{Stored};

    ghost Value = { List Stored };

    ghost view = { λ list. list.items.items };
}

impl StoredList {
    ghost use Rattle.std.specs.Prelude.{◌≡◌, ◌∷◌, ◌++◌, [], OnOk};

    pub(crate) fn new(alloc: Global) -> StoredList
        ensures { result ≡ [] }
    {
        StoredList {
            items: Vec::new(alloc),
        }
    }

    pub(crate) fn items(&self) -> &[Stored]
        ensures { result.now ≡ self.now }
    {
        &self.items
    }

    pub(crate) fn push(&mut self, stored: Stored) -> Result<(), NoMemory>
        ensures { OnOk result (self.new ≡ self.old ++ stored ∷ []) }
    {
        self.items.push(stored)?;
        Ok(())
    }
}
