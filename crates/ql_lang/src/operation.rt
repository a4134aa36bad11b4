ghost use Rattle.std.specs.Prelude.{◌≡◌};

use crate::contract::Contract;
use crate::expression::{Expr, TextLit};
use crate::name::Name;
use std::marker::Model;

/// The kinds of single values.
#[derive(Clone, Copy, PartialEq, Eq)]
pub enum Base {
    Int,
    Bool,
    Text,
}

/// The kinds of values.
#[derive(Clone, Copy, PartialEq, Eq)]
pub enum Kind {
    Unit,
    Int,
    Bool,
    Text,
    Set(Base),
    Map(Base, Base),
}

/// A parameter of an operation.
#[derive(Clone, Copy)]
pub struct Param {
    pub name: Name,
    pub base: Base,
}

/// An operation's parameters, in order.
pub struct Params {
    items: Vec<Param>,
}

// Written out, so that a crate above proves one call for it.
impl Drop for Params {
    fn drop(self) {
        let Params { items: _ } = self;
    }
}

impl Model for Params {
    ghost use Rattle.std.specs.Prelude.{List};
    ghost use Rattle.ql_lang.specs.declared.operation.Param.{Param};

    ghost Value = { List Param };

    ghost view = { λ list. list.items.items };
}

impl Params {
    pub fn of(items: Vec<Param>) -> Params
        ensures { result ≡ items.items }
    {
        Params { items }
    }

    pub fn items(&self) -> &[Param]
        ensures { result.now ≡ self.now }
    {
        self.items.as_slice()
    }

    pub fn into_items(self) -> Vec<Param>
        ensures { result.items ≡ self }
    {
        let Params { items } = self;
        items
    }
}

/// A value that an operation emits, under a name.
#[derive(Drop)]
pub struct Bind {
    pub name: Name,
    pub base: Base,
    pub value: Expr,
}

/// An operation's emitted values, in order.
pub struct Binds {
    items: Vec<Bind>,
}

// Written out, so that a crate above proves one call for it.
impl Drop for Binds {
    fn drop(self) {
        let Binds { items: _ } = self;
    }
}

impl Model for Binds {
    ghost use Rattle.std.specs.Prelude.{List};
    ghost use Rattle.ql_lang.specs.declared.operation.Bind.{Bind};

    ghost Value = { List Bind };

    ghost use Rattle.std.specs.Coded.{codes};
    ghost use Rattle.ql_lang.specs.contracts.expression.ExprNode as expression;

    ghost coded = { Prim.hlevel (codes, expression.the_row.coded) };

    ghost view = { λ list. list.items.items };
}

impl Binds {
    pub fn of(items: Vec<Bind>) -> Binds
        ensures { result ≡ items.items }
    {
        Binds { items }
    }

    pub fn items(&self) -> &[Bind]
        ensures { result.now ≡ self.now }
    {
        self.items.as_slice()
    }

    pub fn into_items(self) -> Vec<Bind>
        ensures { result.items ≡ self }
    {
        let Binds { items } = self;
        items
    }
}

/// A statement: the new value of a state field.
#[derive(Drop)]
pub struct Stmt {
    pub target: Name,
    pub value: Expr,
}

/// An operation's statements, in order.
pub struct Stmts {
    items: Vec<Stmt>,
}

// Written out, so that a crate above proves one call for it.
impl Drop for Stmts {
    fn drop(self) {
        let Stmts { items: _ } = self;
    }
}

impl Model for Stmts {
    ghost use Rattle.std.specs.Prelude.{List};
    ghost use Rattle.ql_lang.specs.declared.operation.Stmt.{Stmt};

    ghost Value = { List Stmt };

    ghost use Rattle.std.specs.Coded.{codes};
    ghost use Rattle.ql_lang.specs.contracts.expression.ExprNode as expression;

    ghost coded = { Prim.hlevel (codes, expression.the_row.coded) };

    ghost view = { λ list. list.items.items };
}

impl Stmts {
    pub fn of(items: Vec<Stmt>) -> Stmts
        ensures { result ≡ items.items }
    {
        Stmts { items }
    }

    pub fn items(&self) -> &[Stmt]
        ensures { result.now ≡ self.now }
    {
        self.items.as_slice()
    }

    pub fn into_items(self) -> Vec<Stmt>
        ensures { result.items ≡ self }
    {
        let Stmts { items } = self;
        items
    }
}

/// What an operation emits and when, and the statements that apply it to a state.
pub struct EmitDecl {
    pub binds: Binds,
    pub test: Expr,
    pub stmts: Stmts,
}

// Written out, so that a crate above proves one call for it.
impl Drop for EmitDecl {
    fn drop(self) {
        let EmitDecl {
            binds: _,
            test: _,
            stmts: _,
        } = self;
    }
}

/// An operation, and the source offset of the word `op`.
pub struct OpDecl {
    pub at: u32,
    pub name: Name,
    pub params: Params,
    pub kind: Kind,
    pub contract: Contract,
    pub answer: Expr,
    pub effect: Option<EmitDecl>,
}

// Written out, so that a crate above proves one call for it.
impl Drop for OpDecl {
    fn drop(self) {
        let OpDecl {
            at: _,
            name: _,
            params: _,
            kind: _,
            contract: _,
            answer: _,
            effect: _,
        } = self;
    }
}

/// A type's operations, in order.
pub struct OpDecls {
    items: Vec<OpDecl>,
}

// Written out, so that a crate above proves one call for it.
impl Drop for OpDecls {
    fn drop(self) {
        let OpDecls { items: _ } = self;
    }
}

impl Model for OpDecls {
    ghost use Rattle.std.specs.Prelude.{List};
    ghost use Rattle.ql_lang.specs.declared.operation.OpDecl.{OpDecl};

    ghost Value = { List OpDecl };

    ghost use Rattle.std.specs.Coded.{codes};
    ghost use Rattle.ql_lang.specs.contracts.expression.ExprNode as expression;
    ghost use Rattle.ql_lang.specs.contracts.contract.Prop as prop;
    ghost use Rattle.ql_lang.specs.contracts.relation.Rel as rel;

    ghost coded = { Prim.hlevel (codes, expression.the_row.coded, prop.the_row.coded, rel.the_row.coded) };

    ghost view = { λ list. list.items.items };
}

impl OpDecls {
    pub fn of(items: Vec<OpDecl>) -> OpDecls
        ensures { result ≡ items.items }
    {
        OpDecls { items }
    }

    pub fn items(&self) -> &[OpDecl]
        ensures { result.now ≡ self.now }
    {
        self.items.as_slice()
    }

    pub fn into_items(self) -> Vec<OpDecl>
        ensures { result.items ≡ self }
    {
        let OpDecls { items } = self;
        items
    }
}
