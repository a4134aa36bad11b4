ghost use Rattle.std.specs.Prelude.{◌≡◌};

use ql_base::Word;
use ql_levels::{Level, TxnLevel};
use ql_refute::Refutation;
use std::marker::Model;

/// The level of an operation or of a declared transaction.
#[derive(Clone, Copy)]
pub enum SectionLevel {
    Op(Level),
    Txn(TxnLevel),
}

/// One section of a certificate: a target's name, its level, and a refutation of the ground problem of the
/// target at that level.
#[derive(Drop)]
pub struct Section {
    pub name: Word,
    pub level: SectionLevel,
    pub refutation: Refutation,
}

/// Sections in order.
pub struct Sections {
    items: Vec<Section>,
}

// Written out, so that a crate above proves one call for it.
impl Drop for Sections {
    fn drop(self) {
        let Sections { items: _ } = self;
    }
}

impl Model for Sections {
    ghost use Rattle.std.specs.Prelude.{List};
    ghost use Rattle.ql_cert.specs.declared.cert.Section.{Section};

    ghost Value = { List Section };

    ghost view = { λ s. s.items.items };
}

impl Sections {
    /// These sections.
    pub fn of(items: Vec<Section>) -> Sections
        ensures { result ≡ items.items }
    {
        Sections { items }
    }

    /// The sections.
    pub fn items(&self) -> &[Section]
        ensures { result.now ≡ self.now }
    {
        &self.items
    }

    /// The sections.
    pub fn into_items(self) -> Vec<Section>
        ensures { result.items ≡ self }
    {
        let Sections { items } = self;
        items
    }
}

/// A certificate: a section for each target, in order.
#[derive(Drop)]
pub struct Cert {
    pub sections: Sections,
}
