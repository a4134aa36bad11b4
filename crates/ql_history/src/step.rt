use ql_base::NoMemory;
use ql_lines::{after_name, after_number, after_spaces, after_word, first_field};
use std::alloc::Global;

/// An event of a schedule, in as much detail as a picture shows.
#[derive(Drop)]
pub enum Step {
    /// A session's call, with its operation and arguments as they are written.
    Call { caller: Caller, call: Vec<u8> },
    /// The begin of a transaction, with its name.
    Begin { caller: Caller, name: Vec<u8> },
    Commit(Caller),
    Deliver(u32),
    Repeat(u32),
    Lose(u32),
    /// A replica sends an effect to another once more.
    Resend { from: u32, to: u32 },
    /// The group of each replica.
    Partition(Vec<u32>),
    Heal,
    /// A replica joins the group of another, as a copy of it or bare.
    Join(u32),
}

/// A session, and the replica where it acts.
#[derive(Clone, Copy)]
pub struct Caller {
    pub session: u32,
    pub replica: u32,
}

/// The event on a line, in a store of this many replicas.
pub(crate) fn step_of(alloc: Global, text: &[u8], replicas: u32) -> Result<Option<Step>, NoMemory> {
    let Some((word, rest)) = first_field(text) else {
        return Ok(None);
    };
    if word == b"call".as_slice() {
        call(alloc, rest, replicas)
    } else if word == b"begin".as_slice() {
        begin(alloc, rest, replicas)
    } else if word == b"partition".as_slice() {
        partition(alloc, rest, replicas)
    } else {
        Ok(other(word, rest, replicas))
    }
}

// An event that consists of numbers only.
fn other(word: &[u8], rest: &[u8], replicas: u32) -> Option<Step> {
    if word == b"commit".as_slice() {
        commit(rest, replicas)
    } else if word == b"resend".as_slice() {
        resend(rest, replicas)
    } else if word == b"join".as_slice() {
        join(rest, replicas)
    } else if word == b"heal".as_slice() {
        heal(rest)
    } else {
        with_message(word, last_number(rest)?)
    }
}

// What happens to the message with this number.
fn with_message(word: &[u8], number: u32) -> Option<Step> {
    if word == b"deliver".as_slice() {
        Some(Step::Deliver(number))
    } else if word == b"repeat".as_slice() {
        Some(Step::Repeat(number))
    } else if word == b"lose".as_slice() {
        Some(Step::Lose(number))
    } else {
        None
    }
}

fn heal(text: &[u8]) -> Option<Step> {
    match first_field(text) {
        Some(_) => None,
        None => Some(Step::Heal),
    }
}

fn call(alloc: Global, text: &[u8], replicas: u32) -> Result<Option<Step>, NoMemory> {
    let Some((caller, call)) = called(text, replicas) else {
        return Ok(None);
    };
    Ok(Some(Step::Call {
        caller,
        call: Vec::from_slice(alloc, call)?,
    }))
}

// The caller, and the rest of the line from the operation on.
fn called(text: &[u8], replicas: u32) -> Option<(Caller, &[u8])> {
    let (caller, rest) = after_caller(text, replicas)?;
    let (_, rest) = after_name(rest)?;
    let (_, _) = after_name(rest)?;
    Some((caller, after_spaces(rest)))
}

fn begin(alloc: Global, text: &[u8], replicas: u32) -> Result<Option<Step>, NoMemory> {
    let Some((caller, name)) = begun(text, replicas) else {
        return Ok(None);
    };
    Ok(Some(Step::Begin {
        caller,
        name: Vec::from_slice(alloc, name)?,
    }))
}

fn begun(text: &[u8], replicas: u32) -> Option<(Caller, &[u8])> {
    let (caller, rest) = after_caller(text, replicas)?;
    let (name, _) = after_name(rest)?;
    Some((caller, name))
}

fn commit(text: &[u8], replicas: u32) -> Option<Step> {
    let (caller, rest) = after_caller(text, replicas)?;
    match first_field(rest) {
        Some(_) => None,
        None => Some(Step::Commit(caller)),
    }
}

fn resend(text: &[u8], replicas: u32) -> Option<Step> {
    let (_, rest) = after_number(text, u32::MAX)?;
    let rest = after_word(rest, b"from")?;
    let (from, rest) = after_number(rest, replicas)?;
    let rest = after_word(rest, b"to")?;
    let to = last_number(rest)?;
    if from < replicas && to < replicas {
        Some(Step::Resend { from, to })
    } else {
        None
    }
}

// A replica that joins the group of another.
fn join(text: &[u8], replicas: u32) -> Option<Step> {
    let (kind, near) = first_field(text)?;
    let near = last_number(near)?;
    let is_kind = kind == b"copy".as_slice() || kind == b"bare".as_slice();
    if is_kind && near < replicas {
        Some(Step::Join(near))
    } else {
        None
    }
}

// A session, and one of this many replicas.
fn after_caller(text: &[u8], replicas: u32) -> Option<(Caller, &[u8])> {
    let (session, rest) = after_number(text, 255)?;
    let rest = after_word(rest, b"at")?;
    let (replica, after) = after_number(rest, replicas)?;
    if replica < replicas {
        Some((Caller { session, replica }, after))
    } else {
        None
    }
}

// The number at the end of a line.
fn last_number(text: &[u8]) -> Option<u32> {
    let (number, after) = after_number(text, u32::MAX)?;
    match first_field(after) {
        Some(_) => None,
        None => Some(number),
    }
}

// The groups, one for each replica.
fn partition(alloc: Global, text: &[u8], replicas: u32) -> Result<Option<Step>, NoMemory> {
    let mut groups = Vec::new(alloc);
    let mut rest = text;
    for _ in 0..replicas {
        let Some((group, after)) = after_number(rest, 15) else {
            return Ok(None);
        };
        groups.push(group)?;
        rest = after;
    }
    match first_field(rest) {
        Some(_) => Ok(None),
        None => Ok(Some(Step::Partition(groups))),
    }
}
