use crate::begun::{Begun, begun_of};
use crate::part::first_part;
use ql_base::{IdSet, NoMemory, Word, is_name, push_bytes};
use ql_lines::{after_name, after_number, after_word, ascending_ids, first_field};
use std::alloc::Global;

/// An effect as a picture shows it.
pub struct Effect {
    /// The index of its object's name.
    pub object: u32,
    pub op: Word,
    /// The operation with its arguments, and the answer, where the text has them.
    pub call: Vec<u8>,
    pub answer: Vec<u8>,
    pub session: u32,
    pub begun: Option<Begun>,
    pub seen: IdSet,
}

// Written out, so that a crate above proves one call for it.
impl Drop for Effect {
    fn drop(self) {
        let Effect {
            object: _,
            op: _,
            call: _,
            answer: _,
            session: _,
            begun: _,
            seen: _,
        } = self;
    }
}

/// The fields of an effect's line, as they are spelled.
#[derive(Clone, Copy)]
pub(crate) struct Spelled<'a> {
    pub object: &'a [u8],
    pub op: &'a [u8],
    pub args: &'a [u8],
    pub answer: &'a [u8],
    pub session: u32,
    pub txn: &'a [u8],
    pub seen: &'a [u8],
}

/// The fields of the line of the effect with this number.
pub(crate) fn read_spelled(text: &[u8], id: u32) -> Option<Spelled> {
    let (object, op, rest) = heading(text, id)?;
    match after_word(rest, b"session") {
        Some(after) => bare(object, op, after),
        None => full(object, op, rest),
    }
}

// The names of the object and the operation, after the word `effect` and the number.
fn heading(text: &[u8], id: u32) -> Option<(&[u8], &[u8], &[u8])> {
    let rest = after_word(text, b"effect")?;
    let (number, rest) = after_number(rest, u32::MAX)?;
    let (object, rest) = after_name(rest)?;
    let (op, after) = after_name(rest)?;
    if number == id {
        Some((object, op, after))
    } else {
        None
    }
}

// An effect of a `holds` file: its session and what it sees.
fn bare<'a>(object: &'a [u8], op: &'a [u8], text: &'a [u8]) -> Option<Spelled<'a>> {
    let (session, rest) = after_number(text, 255)?;
    let seen = after_word(rest, b"vis")?;
    Some(Spelled {
        object,
        op,
        args: b"",
        answer: b"",
        session,
        txn: b"-",
        seen,
    })
}

// An effect of an execution: its call, then its session and what it sees.
fn full<'a>(object: &'a [u8], op: &'a [u8], text: &'a [u8]) -> Option<Spelled<'a>> {
    let (args, answer, rest) = call(text)?;
    let (session, txn, seen) = setting(rest)?;
    Some(Spelled {
        object,
        op,
        args,
        answer,
        session,
        txn,
        seen,
    })
}

// The arguments and the answer of a call, and the rest of the line after its payload.
fn call(text: &[u8]) -> Option<(&[u8], &[u8], &[u8])> {
    let (args, rest) = first_part(text)?;
    let rest = after_word(rest, b"=")?;
    let (answer, rest) = first_part(rest)?;
    let rest = after_word(rest, b"emit")?;
    let (_, after) = first_part(rest)?;
    Some((args, answer, after))
}

// The session, the field of the begun transaction, and the rest of the line after the word `vis`.
fn setting(text: &[u8]) -> Option<(u32, &[u8], &[u8])> {
    let rest = after_word(text, b"session")?;
    let (session, rest) = after_number(rest, 255)?;
    let rest = after_word(rest, b"txn")?;
    let (txn, rest) = first_field(rest)?;
    let seen = after_stamp(rest)?;
    if txn == b"-".as_slice() || begun_of(txn).is_some() {
        Some((session, txn, seen))
    } else {
        None
    }
}

// The rest of the line after the stamp and the word `vis`.
fn after_stamp(text: &[u8]) -> Option<&[u8]> {
    let rest = after_word(text, b"stamp")?;
    let (_, rest) = after_number(rest, u32::MAX)?;
    let after = after_word(rest, b"vis")?;
    Some(after)
}

/// The effect with these fields, on the object with this index. None where the ids that it sees don't ascend.
pub(crate) fn effect_of(
    alloc: Global,
    spelled: Spelled,
    object: u32,
) -> Result<Option<Effect>, NoMemory> {
    let Some(op) = named(spelled.op) else {
        return Ok(None);
    };
    let Some(seen) = ascending_ids(alloc, spelled.seen)? else {
        return Ok(None);
    };
    let call = with_arguments(alloc, spelled.op, spelled.args)?;
    let answer = Vec::from_slice(alloc, spelled.answer)?;
    Ok(Some(Effect {
        object,
        op,
        call,
        answer,
        session: spelled.session,
        begun: begun_of(spelled.txn),
        seen,
    }))
}

fn named(word: &[u8]) -> Option<Word> {
    if is_name(word) {
        Some(Word::of(word))
    } else {
        None
    }
}

// A word, and a second one after it if there is one.
fn with_arguments(alloc: Global, word: &[u8], other: &[u8]) -> Result<Vec<u8>, NoMemory> {
    let mut text = Vec::from_slice(alloc, word)?;
    if !other.is_empty() {
        push_bytes(&mut text, b" ")?;
        push_bytes(&mut text, other)?;
    }
    Ok(text)
}
