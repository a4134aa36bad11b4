// The kinds of expressions, as far as they can be determined, and how a kind is written.

use crate::text::Text;
use ql_base::Word;
use ql_lang::{Base, Bind, ExprNode, Field, Init, InitNode, Kind, Param};
use ql_typing::{Function, find_function, kind_of_base, operator_gives};

/// The names that an expression may use: fields, and parameters or in a statement emitted values.
#[derive(Clone, Copy)]
pub(crate) struct Scope<'a> {
    pub(crate) fields: &'a [Field],
    pub(crate) params: &'a [Param],
    pub(crate) emitted: &'a [Bind],
}

/// The kind of a name in scope. If a name occurs twice, the first kind counts.
pub(crate) fn kind_named(scope: &Scope, word: &Word) -> Option<Kind> {
    for field in scope.fields {
        if field.name.word.bytes() == word.bytes() {
            return Some(field.kind);
        }
    }
    for param in scope.params {
        if param.name.word.bytes() == word.bytes() {
            return Some(kind_of_base(param.base));
        }
    }
    for bind in scope.emitted {
        if bind.name.word.bytes() == word.bytes() {
            return Some(kind_of_base(bind.base));
        }
    }
    None
}

/// The kind of an expression, provided that its parts have the required kinds.
#[cycle(kind)]
pub(crate) fn kind_of(scope: &Scope, node: &ExprNode) -> Option<Kind> {
    match node {
        ExprNode::Int(_) | ExprNode::Neg(_) => Some(Kind::Int),
        ExprNode::Text(_) => Some(Kind::Text),
        ExprNode::Bool(_) | ExprNode::Not(_) => Some(Kind::Bool),
        ExprNode::Unit => Some(Kind::Unit),
        ExprNode::Var(name) => kind_named(scope, &name.word),
        ExprNode::If(_, left, _) => kind_of(scope, &left.node),
        ExprNode::Binary(op, _, _) => Some(operator_gives(*op)),
        ExprNode::Call(name, arguments) => match find_function(name.word.bytes())? {
            Function::Has => Some(Kind::Bool),
            Function::Size | Function::Sum => Some(Kind::Int),
            function => {
                let first = kind_of(scope, &arguments.items().first()?.node)?;
                Some(function.signature(first)?.gives)
            }
        },
    }
}

/// The kind of a field's initial value; none for `empty`.
pub(crate) fn kind_of_init(init: &Init) -> Option<Kind> {
    match init.node {
        InitNode::Int(_) => Some(Kind::Int),
        InitNode::Text(_) => Some(Kind::Text),
        InitNode::Bool(_) => Some(Kind::Bool),
        InitNode::Unit => Some(Kind::Unit),
        InitNode::Empty => None,
    }
}

/// Appends a kind with its article; for none, what has any.
pub(crate) fn push_kind(note: &mut Text, kind: Option<Kind>) {
    match kind {
        None => note.push(b"`empty`"),
        Some(Kind::Unit) => note.push(b"unit"),
        Some(Kind::Int) => note.push(b"an int"),
        Some(Kind::Bool) => note.push(b"a bool"),
        Some(Kind::Text) => note.push(b"a text"),
        Some(Kind::Set(base)) => note.push_filled(b"a set(%)", &[spelling_of(base)]),
        Some(Kind::Map(key, value)) => note.push_filled(
            b"a map(%, %)",
            &[spelling_of(key), spelling_of(value)],
        ),
    }
}

fn spelling_of(base: Base) -> &'static [u8] {
    match base {
        Base::Int => b"int",
        Base::Bool => b"bool",
        Base::Text => b"text",
    }
}
