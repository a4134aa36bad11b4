ghost use Rattle.std.specs.Prelude.{◌≡◌};
ghost use Rattle.ql_lang.specs.Arguments.{arguments};
ghost use Rattle.ql_lang.specs.Expressions.{operands_in, operands_of};

use crate::name::Name;
use std::marker::Model;

/// An expression and the source offset of its first token. Parentheses around the whole of it don't count.
#[cycle(expression)]
#[derive(Drop)]
pub struct Expr {
    pub at: u32,
    pub node: ExprNode,
}

/// The operator, value, name or call at the root of an expression, with its operands.
#[cycle(expression)]
#[derive(Drop)]
pub enum ExprNode {
    Int(i64),
    Text(TextLit),
    Bool(bool),
    Unit,
    Var(Name),
    Call(Name, Exprs),
    If(Box<Expr>, Box<Expr>, Box<Expr>),
    Binary(BinOp, Box<Expr>, Box<Expr>),
    Not(Box<Expr>),
    Neg(Box<Expr>),
}

/// The arguments of a call, in order.
#[cycle(expression)]
#[derive(Drop)]
pub struct Exprs {
    items: Vec<Expr>,
}

impl Exprs {
    pub fn of(items: Vec<Expr>) -> Exprs
        ensures { arguments result ≡ items.items }
    {
        Exprs { items }
    }

    pub fn items(&self) -> &[Expr]
        ensures same { result.now ≡ arguments self.now }
        ensures operands { operands_of result.now ≡ operands_in self.now }
    {
        self.items.as_slice()
    }

    pub fn into_items(self) -> Vec<Expr>
        ensures { result.items ≡ arguments self }
    {
        let Exprs { items } = self;
        items
    }
}

/// The binary operators.
#[derive(Clone, Copy)]
pub enum BinOp {
    Or,
    And,
    Eq,
    Ne,
    Lt,
    Le,
    Gt,
    Ge,
    Add,
    Sub,
    Mul,
}

/// The bytes between the quotes of a text.
pub struct TextLit {
    bytes: Vec<u8>,
}

// Written out, so that a crate above proves one call for it.
impl Drop for TextLit {
    fn drop(self) {
        let TextLit { bytes: _ } = self;
    }
}

impl Model for TextLit {
    ghost use Rattle.std.specs.Prelude.{List, ℕ};

    ghost Value = { List ℕ };

    ghost view = { λ text. text.bytes.items };
}

impl TextLit {
    pub fn of(bytes: Vec<u8>) -> TextLit
        ensures { result ≡ bytes.items }
    {
        TextLit { bytes }
    }

    pub fn items(&self) -> &[u8]
        ensures { result.now ≡ self.now }
    {
        self.bytes.as_slice()
    }

    pub fn into_items(self) -> Vec<u8>
        ensures { result.items ≡ self }
    {
        let TextLit { bytes } = self;
        bytes
    }
}
