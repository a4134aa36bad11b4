ghost use Rattle.std.specs.Prelude.{◌≡◌};

use ql_base::Word;
use std::marker::Model;

/// A name of the source and the source offset of its first byte.
#[derive(Clone, Copy)]
pub struct Name {
    pub word: Word,
    pub at: u32,
}

/// Names in the order of the source.
pub struct NameList {
    items: Vec<Name>,
}

// Written out, so that a crate above proves one call for it.
impl Drop for NameList {
    fn drop(self) {
        let NameList { items: _ } = self;
    }
}

impl Model for NameList {
    ghost use Rattle.std.specs.Prelude.{List};
    ghost use Rattle.ql_lang.specs.declared.name.Name.{Name};

    ghost Value = { List Name };

    ghost view = { λ list. list.items.items };
}

impl NameList {
    pub fn of(items: Vec<Name>) -> NameList
        ensures { result ≡ items.items }
    {
        NameList { items }
    }

    pub fn items(&self) -> &[Name]
        ensures { result.now ≡ self.now }
    {
        self.items.as_slice()
    }

    pub fn into_items(self) -> Vec<Name>
        ensures { result.items ≡ self }
    {
        let NameList { items } = self;
        items
    }
}
