// Names of a source: what an unknown one should have been, which are known in its place, and where one occurs first.

use crate::pieces::{
    Span, anywhere, is_chosen, last_of, next_of, part_of, piece, piece_after, piece_before,
};
use crate::text::Text;
use crate::words::{has_word, is};
use ql_base::NoMemory;
use std::alloc::Global;

// What an unknown name stands for.
#[derive(Clone, Copy)]
enum Sort {
    Operation,
    // The current effect, in a transaction's contract.
    Current,
    // An operation, in the place of a variable.
    Effect,
    Variable,
    Function,
    // A field that is assigned to.
    Target,
    // A parameter, where statements are.
    Parameter,
    Value,
}

fn sort_at(tokens: &[&[u8]], k: usize) -> Sort {
    let (part, name) = (part_of(tokens, k).0, piece(tokens, k));
    if is(part, b"uses") || is_chosen(tokens, k) {
        Sort::Operation
    } else if !is(part, b"contract") {
        sort_of_value(tokens, k, is(part, b"apply"))
    } else if is(name, b"cur") {
        Sort::Current
    } else if anywhere(tokens, b"op").find(tokens, name).is_some() {
        Sort::Effect
    } else {
        Sort::Variable
    }
}

// The same in an expression, and in the statements after `apply`.
fn sort_of_value(tokens: &[&[u8]], k: usize, is_statement: bool) -> Sort {
    if is(piece_after(tokens, k), b"(") {
        Sort::Function
    } else if !is_statement {
        Sort::Value
    } else if is(piece_after(tokens, k), b":=") {
        Sort::Target
    } else if parameters(tokens, k)
        .find(tokens, piece(tokens, k))
        .is_some()
    {
        Sort::Parameter
    } else {
        Sort::Value
    }
}

/// Appends what is unknown.
pub(crate) fn push_unknown(note: &mut Text, tokens: &[&[u8]], k: usize) {
    let sentence: &[u8] = match sort_at(tokens, k) {
        Sort::Operation => b"`%` isn't an operation of this source",
        Sort::Current =>
            b"a transaction's contract has no `cur`, only the variables of its `forall`",
        Sort::Effect | Sort::Variable => b"`%` isn't quantified by the `forall` of this contract",
        Sort::Function => b"`%` isn't a function",
        Sort::Target => b"`%` isn't a field, and only fields can be assigned to",
        Sort::Parameter =>
            b"`%` is a parameter, but statements can use only fields and emitted values: emit it under another name",
        Sort::Value => b"`%` isn't known here",
    };
    note.push_filled(sentence, &[piece(tokens, k)]);
}

/// Appends the names that are known in the place of an unknown one.
pub(crate) fn push_known(
    alloc: Global,
    note: &mut Text,
    tokens: &[&[u8]],
    k: usize,
) -> Result<(), NoMemory> {
    let mut names = Vec::new(alloc);
    match sort_at(tokens, k) {
        Sort::Function => {
            note.push(
                b"  known here: `has`, `size`, `add`, `remove`, `union`, `put`, `drop`, `get`, `sum`\n  `size` counts the entries of a set or a map, and `get(m, k, d)` is a key's value, or `d` where the key is missing\n",
            );
            return Ok(());
        }
        Sort::Effect => {
            note.push_filled(
                b"  it is an operation: `forall x: %.` quantifies its effects\n",
                &[piece(tokens, k)],
            );
            return Ok(());
        }
        Sort::Operation => anywhere(tokens, b"op").push_names(&mut names, tokens)?,
        Sort::Target => fields(tokens, k).push_names(&mut names, tokens)?,
        Sort::Parameter | Sort::Value => {
            fields(tokens, k).push_names(&mut names, tokens)?;
            others(tokens, k).push_names(&mut names, tokens)?;
        }
        Sort::Current | Sort::Variable => {
            variables(tokens, k).push_names(&mut names, tokens)?;
            if is_in_operation(tokens, k) {
                names.push(b"cur".as_slice())?;
            }
        }
    }
    note.push_known(&names);
    Ok(())
}

/// Whether a token is in an operation, and not in a transaction.
pub(crate) fn is_in_operation(tokens: &[&[u8]], k: usize) -> bool {
    match last_of(tokens, k, b"op transaction") {
        Some(owner) => is(piece(tokens, owner), b"op"),
        None => false,
    }
}

// The variables of the contract around a token.
fn variables<'x>(tokens: &[&[u8]], k: usize) -> Span<'x> {
    let from = part_of(tokens, k).1;
    let is_quantified = is(piece_after(tokens, from), b"forall");
    let end = next_of(tokens, from, b".").unwrap_or(from);
    Span {
        from,
        to: if is_quantified { end } else { from },
        after: b"forall ,",
    }
}

// The fields of the type around a token, before it.
fn fields<'x>(tokens: &[&[u8]], k: usize) -> Span<'x> {
    Span {
        from: last_of(tokens, k, b"type").unwrap_or(k),
        to: k,
        after: b"state",
    }
}

// The names other than fields that an expression may use: parameters or, in a statement, emitted values.
fn others<'x>(tokens: &[&[u8]], k: usize) -> Span<'x> {
    if !is(part_of(tokens, k).0, b"apply") {
        return parameters(tokens, k);
    }
    let from = last_of(tokens, k, b"emit").unwrap_or(k);
    Span {
        from: from.saturating_sub(1),
        to: next_of(tokens, from, b"when").unwrap_or(from),
        after: b"emit ( ,",
    }
}

// The parameters of the operation around a token.
fn parameters<'x>(tokens: &[&[u8]], k: usize) -> Span<'x> {
    let from = last_of(tokens, k, b"op").unwrap_or(k);
    Span {
        from,
        to: next_of(tokens, from, b")").unwrap_or(from),
        after: b"( ,",
    }
}

/// The first token with the name at a token, in the same list or among the declarations of the same sort.
pub(crate) fn first_of(tokens: &[&[u8]], k: usize) -> Option<usize> {
    let (part, start) = part_of(tokens, k);
    let (from, after) = if has_word(b"type op transaction", piece_before(tokens, k)) {
        (0, piece_before(tokens, k))
    } else if is_chosen(tokens, k) {
        let colon = last_of(tokens, k, b":")?;
        (colon.saturating_sub(1), b": |".as_slice())
    } else if has_word(b"uses contract", part) {
        (start, b"uses forall ,".as_slice())
    } else {
        return declaration_of(tokens, k);
    };
    let span = Span { from, to: k, after };
    span.find(tokens, piece(tokens, k))
}

/// The token that declares a field, a parameter or an emitted value with the name at a token, before it.
pub(crate) fn declaration_of(tokens: &[&[u8]], k: usize) -> Option<usize> {
    let name = piece(tokens, k);
    let field = fields(tokens, k).find(tokens, name);
    if field.is_some() {
        return field;
    }
    let is_emitted = is(part_of(tokens, k).0, b"emit") && is(piece_after(tokens, k), b":");
    let span = if is_emitted {
        Span {
            from: last_of(tokens, k, b"emit")?.saturating_sub(1),
            to: k,
            after: b"emit ( ,",
        }
    } else {
        others(tokens, k)
    };
    span.find(tokens, name)
}
