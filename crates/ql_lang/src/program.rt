ghost use Rattle.std.specs.Prelude.{◌≡◌};

use crate::contract::Contract;
use crate::expression::TextLit;
use crate::name::{Name, NameList};
use crate::operation::{Kind, OpDecls};
use std::marker::Model;

/// The initial value of a state field, and the source offset of its first token.
#[derive(Drop)]
pub struct Init {
    pub at: u32,
    pub node: InitNode,
}

/// An initial value.
#[derive(Drop)]
pub enum InitNode {
    Int(i64),
    Text(TextLit),
    Bool(bool),
    Unit,
    Empty,
}

/// A state field, and the source offset of the word `state`.
pub struct Field {
    pub at: u32,
    pub name: Name,
    pub kind: Kind,
    pub init: Init,
}

// Written out, so that a crate above proves one call for it.
impl Drop for Field {
    fn drop(self) {
        let Field {
            at: _,
            name: _,
            kind: _,
            init: _,
        } = self;
    }
}

/// A type's state fields, in order.
pub struct Fields {
    items: Vec<Field>,
}

// Written out, so that a crate above proves one call for it.
impl Drop for Fields {
    fn drop(self) {
        let Fields { items: _ } = self;
    }
}

impl Model for Fields {
    ghost use Rattle.std.specs.Prelude.{List};
    ghost use Rattle.ql_lang.specs.declared.program.Field.{Field};

    ghost Value = { List Field };

    ghost view = { λ list. list.items.items };
}

impl Fields {
    pub fn of(items: Vec<Field>) -> Fields
        ensures { result ≡ items.items }
    {
        Fields { items }
    }

    pub fn items(&self) -> &[Field]
        ensures { result.now ≡ self.now }
    {
        self.items.as_slice()
    }

    pub fn into_items(self) -> Vec<Field>
        ensures { result.items ≡ self }
    {
        let Fields { items } = self;
        items
    }
}

/// A replicated type, and the source offset of the word `type`.
pub struct TypeDecl {
    pub at: u32,
    pub name: Name,
    pub fields: Fields,
    pub ops: OpDecls,
}

// Written out, so that a crate above proves one call for it.
impl Drop for TypeDecl {
    fn drop(self) {
        let TypeDecl {
            at: _,
            name: _,
            fields: _,
            ops: _,
        } = self;
    }
}

/// A program's types, in order.
pub struct TypeDecls {
    items: Vec<TypeDecl>,
}

// Written out, so that a crate above proves one call for it.
impl Drop for TypeDecls {
    fn drop(self) {
        let TypeDecls { items: _ } = self;
    }
}

impl Model for TypeDecls {
    ghost use Rattle.std.specs.Prelude.{List};
    ghost use Rattle.ql_lang.specs.declared.program.TypeDecl.{TypeDecl};

    ghost Value = { List TypeDecl };

    ghost use Rattle.std.specs.Coded.{codes};
    ghost use Rattle.ql_lang.specs.contracts.expression.ExprNode as expression;
    ghost use Rattle.ql_lang.specs.contracts.contract.Prop as prop;
    ghost use Rattle.ql_lang.specs.contracts.relation.Rel as rel;

    ghost coded = { Prim.hlevel (codes, expression.the_row.coded, prop.the_row.coded, rel.the_row.coded) };

    ghost view = { λ list. list.items.items };
}

impl TypeDecls {
    pub fn of(items: Vec<TypeDecl>) -> TypeDecls
        ensures { result ≡ items.items }
    {
        TypeDecls { items }
    }

    pub fn items(&self) -> &[TypeDecl]
        ensures { result.now ≡ self.now }
    {
        self.items.as_slice()
    }

    pub fn into_items(self) -> Vec<TypeDecl>
        ensures { result.items ≡ self }
    {
        let TypeDecls { items } = self;
        items
    }
}

/// A transaction, the operations that it uses, and the source offset of the word `transaction`.
pub struct TxnDecl {
    pub at: u32,
    pub name: Name,
    pub uses: NameList,
    pub contract: Contract,
}

// Written out, so that a crate above proves one call for it.
impl Drop for TxnDecl {
    fn drop(self) {
        let TxnDecl {
            at: _,
            name: _,
            uses: _,
            contract: _,
        } = self;
    }
}

/// A program's transactions, in order.
pub struct TxnDecls {
    items: Vec<TxnDecl>,
}

// Written out, so that a crate above proves one call for it.
impl Drop for TxnDecls {
    fn drop(self) {
        let TxnDecls { items: _ } = self;
    }
}

impl Model for TxnDecls {
    ghost use Rattle.std.specs.Prelude.{List};
    ghost use Rattle.ql_lang.specs.declared.program.TxnDecl.{TxnDecl};

    ghost Value = { List TxnDecl };

    ghost use Rattle.std.specs.Coded.{codes};
    ghost use Rattle.ql_lang.specs.contracts.contract.Prop as prop;
    ghost use Rattle.ql_lang.specs.contracts.relation.Rel as rel;

    ghost coded = { Prim.hlevel (codes, prop.the_row.coded, rel.the_row.coded) };

    ghost view = { λ list. list.items.items };
}

impl TxnDecls {
    pub fn of(items: Vec<TxnDecl>) -> TxnDecls
        ensures { result ≡ items.items }
    {
        TxnDecls { items }
    }

    pub fn items(&self) -> &[TxnDecl]
        ensures { result.now ≡ self.now }
    {
        self.items.as_slice()
    }

    pub fn into_items(self) -> Vec<TxnDecl>
        ensures { result.items ≡ self }
    {
        let TxnDecls { items } = self;
        items
    }
}

/// A whole source.
pub struct Program {
    pub types: TypeDecls,
    pub txns: TxnDecls,
}

// Written out, so that a crate above proves one call for it.
impl Drop for Program {
    fn drop(self) {
        let Program { types: _, txns: _ } = self;
    }
}
