// Why an effect of an execution can't be where it is, and the stamp that it should have.

use crate::breaches::first_seen;
use crate::lines::Line;
use crate::pieces::{anywhere, type_at};
use crate::place::line_of;
use crate::text::Text;
use crate::words::{is, is_line_start, line_with, without_return, word, word_of};
use ql_base::number_of;

// An effect: its number, its object, its operation, its session, its transaction and its stamp.
#[derive(Clone, Copy)]
struct Effect<'a> {
    id: &'a [u8],
    object: &'a [u8],
    operation: &'a [u8],
    session: &'a [u8],
    txn: &'a [u8],
    stamp: u64,
}

// The effect of the line that begins at an offset, if a line with one begins there.
fn effect_at(text: &[u8], k: usize) -> Option<Effect> {
    if !is_line_start(text, k) || k > text.len() {
        return None;
    }
    let line = without_return(line_of(&text[k..]));
    if !is(word_of(line, 0), b"effect") {
        return None;
    }
    let rest = after_session(line)?;
    Some(Effect {
        id: word_of(line, 1),
        object: word_of(line, 2),
        operation: word_of(line, 3),
        session: word_of(rest, 0),
        txn: word_of(rest, 2),
        stamp: number_of(word_of(rest, 4), u32::MAX as u64).unwrap_or(0),
    })
}

// The rest of a line after the last word `session`.
fn after_session(line: &[u8]) -> Option<&[u8]> {
    let mut found = None;
    for k in 0..line.len() {
        if let Some(rest) = line[k..].strip_prefix(b" session ") {
            found = Some(rest);
        }
    }
    found
}

/// The field of the first effect that is seen and is on another object, and that object.
pub(crate) fn other_seen<'a>(line: &Line<'a>) -> (usize, &'a [u8]) {
    for k in 0..line.above.len() {
        if let Some(other) = effect_at(line.above, k)
            && other.object != line.field(2)
            && let Some(seen) = seen_field(line, other.id)
        {
            return (seen, other.object);
        }
    }
    (0, b"")
}

// The field in which an effect with a number is seen.
fn seen_field(line: &Line, id: &[u8]) -> Option<usize> {
    for (k, field) in line.fields.iter().enumerate() {
        if field.text == id && first_seen(line) <= k {
            return Some(k);
        }
    }
    None
}

/// Appends the object of an effect, and that of the first one on another object that it sees.
pub(crate) fn push_other_object(said: &mut Text, line: &Line) {
    let (seen, object) = other_seen(line);
    said.push_filled(
        b"effect % is on `%`, but effect %, which sees it, is on `%`",
        &[line.field(seen), object, line.field(1), line.field(2)],
    );
}

/// Appends the type of an effect's operation, and that of the operation of the first effect on its object.
pub(crate) fn push_mixed(said: &mut Text, line: &Line) {
    let operation = line.field(3);
    let first = line_with(line.above, b"effect", 2, line.field(2));
    let other = word_of(first, 3);
    said.push_filled(
        b"an object has one type: `%` belongs to `%`, but `%` at effect % belongs to `%`",
        &[
            operation,
            type_of(line.source, operation),
            other,
            word_of(first, 1),
            type_of(line.source, other),
        ],
    );
}

fn type_of<'a>(source: &[&'a [u8]], operation: &[u8]) -> &'a [u8] {
    match anywhere(source, b"op").find(source, operation) {
        Some(op) => type_at(source, op),
        None => b"",
    }
}

/// Appends why an effect can't belong to its transaction: another effect of it is in another session or under another
/// name, or else one of the session comes between them.
pub(crate) fn push_split(said: &mut Text, line: &Line) {
    let (txn, session) = (line.field(12), line.field(10));
    let mut between = b"".as_slice();
    for k in 0..line.above.len() {
        let Some(other) = effect_at(line.above, k) else {
            continue;
        };
        if number_in(other.txn) != number_in(txn) {
            if other.session == session {
                between = other.id;
            }
        } else if other.session != session {
            return said.push_filled(
                b"a transaction has one number, name and session: effect % is in session %, but this one is in session %",
                &[other.id, other.session, session],
            );
        } else if other.txn != txn {
            return said.push_filled(
                b"a transaction has one number, name and session: effect % is in transaction %, but this one is in %",
                &[other.id, other.txn, txn],
            );
        }
    }
    said.push_filled(
        b"a transaction's effects follow one another in its session, but effect % of this session comes between them",
        &[between],
    );
}

/// The number of a begun transaction, as it is written.
pub(crate) fn number_in(txn: &[u8]) -> &[u8] {
    match txn.iter().position(|byte| *byte == b':') {
        Some(at) if at <= txn.len() => &txn[..at],
        _ => txn,
    }
}

/// One more than the greatest stamp among the effects that the effect of a line sees and the earlier ones of its
/// session.
pub(crate) fn right_stamp(line: &Line) -> u64 {
    let mut greatest = 0;
    for k in 0..line.above.len() {
        if let Some(other) = effect_at(line.above, k)
            && other.stamp > greatest
            && (other.session == line.field(10) || seen_field(line, other.id).is_some())
        {
            greatest = other.stamp;
        }
    }
    greatest.saturating_add(1)
}

/// The offset of the line, from an offset on, of the effect with a number, or of the first one in the begun transaction
/// with that number.
pub(crate) fn find_effect(text: &[u8], from: usize, number: u64, is_txn: bool) -> Option<usize> {
    for k in from..text.len() {
        if let Some(effect) = effect_at(text, k) {
            let found = if is_txn {
                number_in(effect.txn)
            } else {
                effect.id
            };
            if number_of(found, u64::MAX) == Some(number) {
                return Some(k);
            }
        }
    }
    None
}

/// The declared name of the transaction of an effect in a line.
pub(crate) fn transaction_of(line: &[u8]) -> &[u8] {
    match effect_at(line, 0) {
        Some(effect) => {
            let number = number_in(effect.txn).len();
            effect.txn.get(number.saturating_add(1)..).unwrap_or(b"")
        }
        None => b"",
    }
}
