ghost use Rattle.std.specs.Prelude.{◌≡◌};

use crate::name::{Name, NameList};
use crate::relation::Rel;
use std::marker::Model;

/// A contract: its variables, each over all effects, and what holds of them and the current effect.
pub struct Contract {
    pub vars: Vars,
    pub body: Prop,
}

// Written out, so that a crate above proves one call for it.
impl Drop for Contract {
    fn drop(self) {
        let Contract { vars: _, body: _ } = self;
    }
}

/// A variable. If it names operations, it ranges only over their effects.
#[derive(Drop)]
pub struct Var {
    pub name: Name,
    pub ops: NameList,
}

/// A contract's variables, in order.
pub struct Vars {
    items: Vec<Var>,
}

// Written out, so that a crate above proves one call for it.
impl Drop for Vars {
    fn drop(self) {
        let Vars { items: _ } = self;
    }
}

impl Model for Vars {
    ghost use Rattle.std.specs.Prelude.{List};
    ghost use Rattle.ql_lang.specs.declared.contract.Var.{Var};

    ghost Value = { List Var };

    ghost view = { λ list. list.items.items };
}

impl Vars {
    pub fn of(items: Vec<Var>) -> Vars
        ensures { result ≡ items.items }
    {
        Vars { items }
    }

    pub fn items(&self) -> &[Var]
        ensures { result.now ≡ self.now }
    {
        self.items.as_slice()
    }

    pub fn into_items(self) -> Vec<Var>
        ensures { result.items ≡ self }
    {
        let Vars { items } = self;
        items
    }
}

/// What a contract says. `Txn` has the source offset of the word `txn`.
#[derive(Drop)]
pub enum Prop {
    True,
    Apply(Rel, Point, Point),
    And(Box<Prop>, Box<Prop>),
    Or(Box<Prop>, Box<Prop>),
    Implies(Box<Prop>, Box<Prop>),
    Txn(u32, Points, Points),
}

/// A term: the current effect, with its source offset, or a variable.
#[derive(Clone, Copy)]
pub enum Point {
    CurAt(u32),
    Named(Name),
}

/// Terms in the order of the source.
pub struct Points {
    items: Vec<Point>,
}

// Written out, so that a crate above proves one call for it.
impl Drop for Points {
    fn drop(self) {
        let Points { items: _ } = self;
    }
}

impl Model for Points {
    ghost use Rattle.std.specs.Prelude.{List};
    ghost use Rattle.ql_lang.specs.declared.contract.Point.{Point};

    ghost Value = { List Point };

    ghost view = { λ list. list.items.items };
}

impl Points {
    pub fn of(items: Vec<Point>) -> Points
        ensures { result ≡ items.items }
    {
        Points { items }
    }

    pub fn items(&self) -> &[Point]
        ensures { result.now ≡ self.now }
    {
        self.items.as_slice()
    }

    pub fn into_items(self) -> Vec<Point>
        ensures { result.items ≡ self }
    {
        let Points { items } = self;
        items
    }
}
