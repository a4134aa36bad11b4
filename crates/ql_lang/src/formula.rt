ghost use Rattle.std.specs.Prelude.{◌≡◌};

use crate::relation::Rel;
use ql_base::IdSet;
use std::marker::Model;

/// A contract whose names are resolved.
pub struct Formula {
    pub vars: Choices,
    pub body: Body,
}

// Written out, so that a crate above proves one call for it.
impl Drop for Formula {
    fn drop(self) {
        let Formula { vars: _, body: _ } = self;
    }
}

/// The operations over whose effects a variable ranges.
#[derive(Drop)]
pub enum OpChoice {
    Any,
    OneOf(IdSet),
}

/// The choice of each of a formula's variables, in order.
pub struct Choices {
    items: Vec<OpChoice>,
}

// Written out, so that a crate above proves one call for it.
impl Drop for Choices {
    fn drop(self) {
        let Choices { items: _ } = self;
    }
}

impl Model for Choices {
    ghost use Rattle.std.specs.Prelude.{List};
    ghost use Rattle.ql_lang.specs.declared.formula.OpChoice.{OpChoice};

    ghost Value = { List OpChoice };

    ghost view = { λ list. list.items.items };
}

impl Choices {
    pub fn of(items: Vec<OpChoice>) -> Choices
        ensures { result ≡ items.items }
    {
        Choices { items }
    }

    pub fn items(&self) -> &[OpChoice]
        ensures { result.now ≡ self.now }
    {
        self.items.as_slice()
    }

    pub fn into_items(self) -> Vec<OpChoice>
        ensures { result.items ≡ self }
    {
        let Choices { items } = self;
        items
    }
}

/// What a formula says.
#[derive(Drop)]
pub enum Body {
    True,
    Apply(Rel, Term, Term),
    And(Box<Body>, Box<Body>),
    Or(Box<Body>, Box<Body>),
    Implies(Box<Body>, Box<Body>),
    Txn(Terms, Terms),
}

/// The current effect, or a variable by its number from 0.
#[derive(Clone, Copy, PartialEq, Eq)]
pub enum Term {
    Cur,
    Var(u32),
}

/// Terms in order.
pub struct Terms {
    items: Vec<Term>,
}

// Written out, so that a crate above proves one call for it.
impl Drop for Terms {
    fn drop(self) {
        let Terms { items: _ } = self;
    }
}

impl Model for Terms {
    ghost use Rattle.std.specs.Prelude.{List};
    ghost use Rattle.ql_lang.specs.declared.formula.Term.{Term};

    ghost Value = { List Term };

    ghost view = { λ list. list.items.items };
}

impl Terms {
    pub fn of(items: Vec<Term>) -> Terms
        ensures { result ≡ items.items }
    {
        Terms { items }
    }

    pub fn items(&self) -> &[Term]
        ensures { result.now ≡ self.now }
    {
        self.items.as_slice()
    }

    pub fn into_items(self) -> Vec<Term>
        ensures { result.items ≡ self }
    {
        let Terms { items } = self;
        items
    }
}
