// Which expression doesn't have the required kind, found by the offset of its first token: the kind that it has, the
// required one, and what requires it.

use crate::arguments::push_counts;
use crate::kinds::{Scope, kind_named, kind_of, kind_of_init, push_kind};
use crate::text::Text;
use crate::words::row;
use ql_lang::{BinOp, EmitDecl, Expr, ExprNode, Field, Kind, OpDecl, Program};
use ql_typing::{Function, find_function, is_basic, kind_of_base};

/// The kinds that are allowed.
#[derive(Clone, Copy)]
pub(crate) enum Allowed {
    Only(Kind),
    /// The base kinds.
    Basic,
    /// Those of a function's first argument.
    First(Function),
    Any,
}

/// Which kinds something requires of an expression.
#[derive(Clone, Copy)]
pub(crate) struct Requirement<'a> {
    allowed: Allowed,
    // A sentence with `%` for the owner. After a space at its end the kind follows.
    reason: &'static [u8],
    // The name of a declaration or a function, or an operator.
    owner: &'a [u8],
}

const ANY: Requirement<'static> = Requirement {
    allowed: Allowed::Any,
    reason: b"",
    owner: b"",
};

fn only<'a>(kind: Kind, reason: &'static [u8], owner: &'a [u8]) -> Requirement<'a> {
    Requirement {
        allowed: Allowed::Only(kind),
        reason,
        owner,
    }
}

// The same, where the required kind may be unknown.
fn same<'a>(kind: Option<Kind>, reason: &'static [u8], owner: &'a [u8]) -> Requirement<'a> {
    match kind {
        Some(kind) => only(kind, reason, owner),
        None => ANY,
    }
}

/// What is wrong with an expression.
#[derive(Clone, Copy)]
pub(crate) enum Clash<'a> {
    /// It doesn't have a required kind. `found` is `None` for `empty`.
    Kind {
        found: Option<Kind>,
        requirement: Requirement<'a>,
        /// Whether the expression is a name.
        is_name: bool,
    },
    /// A function, and how many arguments it is given.
    Count(Function, &'a [u8], usize),
}

// What an operator or a function takes; the kinds follow.
const TAKES: &[u8] = b"`%` takes ";

// What is searched for a clash: the names in scope, and the offset of the expression.
#[derive(Clone, Copy)]
struct Search<'a> {
    scope: &'a Scope<'a>,
    at: usize,
}

// The clash in an expression of which a kind is required.
#[cycle(clash)]
fn clash_of<'a>(search: Search, e: &'a Expr, requirement: Requirement<'a>) -> Option<Clash<'a>> {
    let at = e.at as usize;
    let inner = clash_inside(search, at, &e.node);
    if inner.is_some() || at != search.at {
        return inner;
    }
    let found = kind_of(search.scope, &e.node)?;
    let is_allowed = match requirement.allowed {
        Allowed::Only(wanted) => wanted == found,
        Allowed::Basic => is_basic(found),
        Allowed::First(function) => function.signature(found).is_some(),
        Allowed::Any => true,
    };
    if is_allowed {
        return None;
    }
    Some(Clash::Kind {
        found: Some(found),
        requirement,
        is_name: matches!(&e.node, ExprNode::Var(_)),
    })
}

// The clash in the parts of an expression that begins at an offset.
#[cycle(clash)]
fn clash_inside<'a>(search: Search, at: usize, node: &'a ExprNode) -> Option<Clash<'a>> {
    match node {
        ExprNode::Call(name, arguments) => {
            let function = find_function(name.word.bytes())?;
            let arguments = arguments.items();
            if at == search.at && arguments.len() != function.arity() {
                return Some(Clash::Count(function, name.word.bytes(), arguments.len()));
            }
            clash_in_arguments(search, function, name.word.bytes(), arguments)
        }
        ExprNode::If(test, left, right) => {
            let branch = kind_of(search.scope, &left.node);
            let of_test = only(Kind::Bool, b"the condition of `if` is a bool", b"");
            let of_right = same(branch, b"`then` and `else` must have the same kind", b"");
            clash_of(search, test, of_test)
                .or(clash_of(search, left, ANY))
                .or(clash_of(search, right, of_right))
        }
        ExprNode::Binary(op, left, right) => {
            let of_right = right_requirement(*op, kind_of(search.scope, &left.node));
            clash_of(search, left, left_requirement(*op)).or(clash_of(search, right, of_right))
        }
        ExprNode::Not(operand) => clash_of(search, operand, only(Kind::Bool, TAKES, b"not")),
        ExprNode::Neg(operand) => clash_of(search, operand, only(Kind::Int, TAKES, b"-")),
        _ => None,
    }
}

// The clash in the arguments of a function with a name.
#[cycle(clash)]
fn clash_in_arguments<'a>(
    search: Search,
    function: Function,
    name: &'a [u8],
    arguments: &'a [Expr],
) -> Option<Clash<'a>> {
    let (first, others) = arguments.split_first()?;
    let kind = kind_of(search.scope, &first.node);
    let of_first = Requirement {
        allowed: Allowed::First(function),
        reason: TAKES,
        owner: name,
    };
    let mut clash = clash_of(search, first, of_first);
    let mut is_second = true;
    for argument in others {
        let wanted = match kind.and_then(|kind| function.signature(kind)) {
            Some(signature) if is_second => signature.second,
            Some(signature) => signature.third,
            None => None,
        };
        clash = clash.or(clash_of(search, argument, same(wanted, TAKES, name)));
        is_second = false;
    }
    clash
}

// What an operator requires of its left operand.
fn left_requirement(op: BinOp) -> Requirement<'static> {
    match op {
        BinOp::Eq | BinOp::Ne => Requirement {
            allowed: Allowed::Basic,
            reason: b"`%` compares only values of these kinds",
            owner: spelling_of(op),
        },
        BinOp::Or | BinOp::And => only(Kind::Bool, TAKES, spelling_of(op)),
        _ => only(Kind::Int, TAKES, spelling_of(op)),
    }
}

// What an operator requires of its right operand, by the kind of the left one.
fn right_requirement(op: BinOp, left: Option<Kind>) -> Requirement<'static> {
    match op {
        BinOp::Eq | BinOp::Ne => same(
            left.filter(|kind| is_basic(*kind)),
            b"both sides of `%` must have the same kind",
            spelling_of(op),
        ),
        _ => left_requirement(op),
    }
}

fn spelling_of(op: BinOp) -> &'static [u8] {
    match op {
        BinOp::Or => b"or",
        BinOp::And => b"and",
        BinOp::Eq => b"==",
        BinOp::Ne => b"!=",
        BinOp::Lt => b"<",
        BinOp::Le => b"<=",
        BinOp::Gt => b">",
        BinOp::Ge => b">=",
        BinOp::Add => b"+",
        BinOp::Sub => b"-",
        BinOp::Mul => b"*",
    }
}

/// The clash at an offset of a source.
pub(crate) fn clash_at(program: &Program, at: usize) -> Option<Clash> {
    for declared in program.types.items() {
        let fields = declared.fields.items();
        for field in fields {
            if field.init.at as usize == at {
                return Some(initial_clash(field));
            }
        }
        for op in declared.ops.items() {
            let clash = clash_in_operation(fields, op, at);
            if clash.is_some() {
                return clash;
            }
        }
    }
    None
}

fn initial_clash(field: &Field) -> Clash {
    let reason = match field.kind {
        Kind::Set(_) | Kind::Map(_, _) =>
            b"the field `%` is a set or a map, which begins as `empty`".as_slice(),
        _ => b"the field `%` is ".as_slice(),
    };
    Clash::Kind {
        found: kind_of_init(&field.init),
        requirement: only(field.kind, reason, field.name.word.bytes()),
        is_name: false,
    }
}

fn clash_in_operation<'a>(fields: &'a [Field], op: &'a OpDecl, at: usize) -> Option<Clash<'a>> {
    let scope = Scope {
        fields,
        params: op.params.items(),
        emitted: &[],
    };
    let search = Search { scope: &scope, at };
    let answer = only(op.kind, b"the answer of `%` is ", op.name.word.bytes());
    let clash = clash_of(search, &op.answer, answer);
    match &op.effect {
        Some(effect) if clash.is_none() => clash_in_effect(search, effect),
        _ => clash,
    }
}

fn clash_in_effect<'a>(search: Search, effect: &'a EmitDecl) -> Option<Clash<'a>> {
    for bind in effect.binds.items() {
        let kind = kind_of_base(bind.base);
        let emitted = only(kind, b"the emitted value `%` is ", bind.name.word.bytes());
        let clash = clash_of(search, &bind.value, emitted);
        if clash.is_some() {
            return clash;
        }
    }
    let when = only(Kind::Bool, b"`when` takes a bool", b"");
    clash_of(search, &effect.test, when).or(clash_in_statements(search, effect))
}

fn clash_in_statements<'a>(search: Search, effect: &'a EmitDecl) -> Option<Clash<'a>> {
    let scope = Scope {
        fields: search.scope.fields,
        params: &[],
        emitted: effect.binds.items(),
    };
    let applied = Search {
        scope: &scope,
        at: search.at,
    };
    for statement in effect.stmts.items() {
        let target = &statement.target.word;
        let kind = kind_named(&scope, target);
        let requirement = same(kind, b"the field `%` is ", target.bytes());
        let clash = clash_of(applied, &statement.value, requirement);
        if clash.is_some() {
            return clash;
        }
    }
    None
}

// What each function takes.
const TAKEN: &str = "has a set or a map, then an element or a key
size a set or a map
add a set, then an element
remove a set, then an element
union a set, then another one of the same kind
put a map, then a key, then its value
drop a map, then a key
get a map, then a key, then the value to use if the key is missing
sum a map with int values";

/// Appends the found and the expected kind, and what requires the expected one.
pub(crate) fn push_clash(note: &mut Text, clash: Clash) {
    match clash {
        Clash::Count(function, name, given) => {
            push_counts(note, name, function.arity(), given);
            note.push(b": it takes ");
            note.push(row(TAKEN, name));
        }
        Clash::Kind {
            found,
            requirement,
            ..
        } => {
            note.push(b"found ");
            push_kind(note, found);
            note.push(b", expected ");
            push_allowed(note, requirement);
            note.push(b": ");
            note.push_filled(requirement.reason, &[requirement.owner]);
            if requirement.reason == TAKES && !row(TAKEN, requirement.owner).is_empty() {
                note.push(row(TAKEN, requirement.owner));
            } else if requirement.reason.ends_with(b" ") {
                push_allowed(note, requirement);
            }
        }
    }
}

fn push_allowed(note: &mut Text, requirement: Requirement) {
    let taken = row(TAKEN, requirement.owner);
    match requirement.allowed {
        Allowed::Only(kind) => push_kind(note, Some(kind)),
        Allowed::Basic => note.push(b"an int, a bool or a text"),
        Allowed::First(_) => {
            let first = taken.iter().take_while(|byte| **byte != b',').count();
            note.push(taken.get(..first).unwrap_or(taken));
        }
        Allowed::Any => {}
    }
}
