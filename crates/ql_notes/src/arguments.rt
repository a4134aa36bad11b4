// The arguments of a call in a schedule, and what its operation takes.

use crate::lines::Line;
use crate::pieces::{anywhere, next_of, piece, piece_before, type_at};
use crate::text::Text;
use crate::words::{has_word, is, row};
use ql_base::number_of;

// The fields of a call: its operation, and its first argument.
const OPERATION: usize = 5;

const ARGUMENT: usize = 6;

/// The index of the field where a call's operation or its arguments don't fit: of the first argument of another kind, or
/// else of the first that is missing or too many.
pub(crate) fn misfit(line: &Line) -> usize {
    let Some(op) = own_operation(line) else {
        return OPERATION;
    };
    let fitting = count(line.source, op).min(given(line));
    for k in 0..fitting {
        let argument = ARGUMENT.saturating_add(k);
        if kind_of(line.field(argument)) != base(line.source, op, k) {
            return argument;
        }
    }
    ARGUMENT.saturating_add(fitting)
}

// How many arguments a call has.
fn given(line: &Line) -> usize {
    line.fields.len().saturating_sub(ARGUMENT)
}

// The name in the declaration of a call's operation, if that is one of the object's type.
fn own_operation(line: &Line) -> Option<usize> {
    let op = anywhere(line.source, b"op").find(line.source, line.field(OPERATION))?;
    if type_at(line.source, op) == line.type_of_object() {
        Some(op)
    } else {
        None
    }
}

// Where the parameters of the operation with its name at a token end, at their bracket.
fn end_of_parameters(source: &[&[u8]], op: usize) -> usize {
    next_of(source, op, b")").unwrap_or(op)
}

// How many parameters an operation has: each takes four tokens, a name, a colon, a kind, and a comma or a bracket.
fn count(source: &[&[u8]], op: usize) -> usize {
    end_of_parameters(source, op)
        .saturating_sub(op)
        .saturating_sub(1)
        / 4
}

// The kind of a parameter.
fn base<'a>(source: &[&'a [u8]], op: usize, k: usize) -> &'a [u8] {
    piece(
        source,
        op.saturating_add(k.saturating_mul(4)).saturating_add(4),
    )
}

// The kind of an argument, by its first byte.
fn kind_of(argument: &[u8]) -> &'static [u8] {
    if has_word(b"true false", argument) {
        b"bool"
    } else if argument.starts_with(b"\"") {
        b"text"
    } else {
        b"int"
    }
}

/// Whether an argument is a number that doesn't fit in 64 bits.
pub(crate) fn is_too_great(argument: &[u8]) -> bool {
    let (digits, most) = match argument.strip_prefix(b"-") {
        Some(digits) => (digits, 9_223_372_036_854_775_808),
        None => (argument, 9_223_372_036_854_775_807),
    };
    matches!(digits.first(), Some(b'0'..=b'9')) && number_of(digits, most).is_none()
}

// A kind with its article.
const ARTICLES: &str = "int an int
bool a bool
text a text";

/// Appends why a call doesn't fit at a field.
pub(crate) fn push_misfit(said: &mut Text, line: &Line, k: usize) {
    let name = line.field(OPERATION);
    let Some(op) = own_operation(line) else {
        return said.push_filled(
            b"`%` has type `%`, which has no operation `%`",
            &[line.field(4), line.type_of_object(), name],
        );
    };
    let (taken, given) = (count(line.source, op), given(line));
    if taken != given {
        return push_counts(said, name, taken, given);
    }
    let number = k.saturating_sub(ARGUMENT);
    let found = row(ARTICLES, kind_of(line.field(k)));
    let expected = row(ARTICLES, base(line.source, op, number));
    said.push_filled(b"found %, expected %: ", &[found, expected]);
    said.push_counted(
        b"this is argument # of `%`",
        &[name],
        &[number.saturating_add(1) as u64],
    );
}

/// Appends how many arguments an operation or a function takes, and how many there are.
pub(crate) fn push_counts(said: &mut Text, operation: &[u8], taken: usize, given: usize) {
    let sentence: &[u8] = if taken == 1 {
        b"`%` takes # argument, but # were given"
    } else if given == 1 {
        b"`%` takes # arguments, but # was given"
    } else {
        b"`%` takes # arguments, but # were given"
    };
    said.push_counted(sentence, &[operation], &[taken as u64, given as u64]);
}

/// Appends what the operation of a call takes, as in a source.
pub(crate) fn push_operation(note: &mut Text, line: &Line) {
    let (source, name) = (line.source, line.field(OPERATION));
    let Some(op) = anywhere(source, b"op").find(source, name) else {
        return;
    };
    note.push_filled(
        b"  `%` is an operation of `%` and takes `",
        &[name, type_at(source, op)],
    );
    for k in op.saturating_add(1)..end_of_parameters(source, op) {
        let token = piece(source, k);
        let is_close = has_word(b"( , :", token) || is(piece_before(source, k), b"(");
        note.push(if is_close { b"" } else { b" " });
        note.push_filled(b"%", &[token]);
    }
    note.push(b")`\n");
}
