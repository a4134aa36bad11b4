ghost use Rattle.std.specs.Prelude.{◌≡◌, ◌∷◌, IfOk, MatchOption, Bool, List, ℕ, true, false, codes};
ghost use Rattle.ql_lines.specs.Fields.{Fields};
ghost use Rattle.ql_schedule.specs.declared.event_parts.Caller.{Caller};
ghost use Rattle.ql_schedule.specs.declared.event_line.EventLine.{EventLine};
ghost use Rattle.ql_schedule.specs.EventLines.{IsCalled, IsEventIn, IsEventLine, IsKindRead, is_of_version, join_word};
ghost use Rattle.ql_schedule.specs.Parts.{parts_of};

use crate::argument::arguments;
use crate::event_parts::{Caller, after_caller, names, numbers, one_number};
use crate::lists::{Arguments, Numbers, Words};
use crate::parts::{after_name, after_number, after_word, first_part, is_end};
use ql_base::{NoMemory, Word};
use std::alloc::Global;

/// An event as it is written: names that may be unknown, and numbers that may be out of range.
#[derive(Drop)]
pub(crate) enum EventLine {
    Call {
        caller: Caller,
        object: Word,
        op: Word,
        args: Arguments,
    },
    Begin {
        caller: Caller,
        txn: Word,
        objects: Words,
    },
    Commit(Caller),
    Deliver(u64),
    Repeat(u64),
    Lose(u64),
    Resend {
        effect: u64,
        from: u64,
        to: u64,
    },
    Partition(Numbers),
    Heal,
    Join {
        near: u64,
        copy: bool,
    },
}

/// The event that a line spells in a version of the format.
pub(crate) fn read_event(
    alloc: Global,
    version: u32,
    text: &[u8],
) -> Result<Option<EventLine>, NoMemory>
    ensures { IfOk result
        (λ read. MatchOption read ((l : EventLine) → IsEventIn version (parts_of text.now) l → ⊥)
        (λ l. IsEventIn version (parts_of text.now) l)) }
{
    match read_event_line(alloc, text)? {
        Some(line) => Ok(in_version(version, line)),
        None => Ok(None),
    }
}

// The line, if a version of the format has it.
fn in_version(version: u32, line: EventLine) -> Option<EventLine>
    ensures { MatchOption result (is_of_version version line ≡ false)
        (λ l. (l ≡ line) × (is_of_version version line ≡ true)) }
{
    if line.is_of_version(version) {
        Some(line)
    } else {
        None
    }
}

impl EventLine {
    fn is_of_version(&self, version: u32) -> bool
        ensures { result ≡ is_of_version version self.now }
    {
        match self {
            EventLine::Join { .. } => version == 2,
            _ => true,
        }
    }
}

// The event that a line spells.
fn read_event_line(alloc: Global, text: &[u8]) -> Result<Option<EventLine>, NoMemory>
    ensures { IfOk result
        (λ read. MatchOption read ((l : EventLine) → IsEventLine (parts_of text.now) l → ⊥)
        (λ l. IsEventLine (parts_of text.now) l)) }
{
    let Some((word, rest)) = first_part(text) else {
        return Ok(None);
    };
    if word == b"call".as_slice() {
        call(alloc, rest)
    } else if word == b"begin".as_slice() {
        begin(alloc, rest)
    } else if word == b"partition".as_slice() {
        partition(alloc, rest)
    } else {
        Ok(plain(word, rest))
    }
}

// An event of a kind that allocates nothing.
fn plain(word: &[u8], rest: &[u8]) -> Option<EventLine>
    requires call { word.now ≡ codes "call" → ⊥ }
    requires begin { word.now ≡ codes "begin" → ⊥ }
    requires partition { word.now ≡ codes "partition" → ⊥ }
    ensures { IsKindRead word.now (parts_of rest.now) result }
{
    if word == b"commit".as_slice() {
        commit(rest)
    } else if word == b"deliver".as_slice() {
        deliver(rest)
    } else if word == b"repeat".as_slice() {
        repeat(rest)
    } else if word == b"lose".as_slice() {
        lose(rest)
    } else if word == b"resend".as_slice() {
        resend(rest)
    } else if word == b"join".as_slice() {
        join(rest)
    } else if word == b"heal".as_slice() && is_end(rest) {
        Some(EventLine::Heal)
    } else {
        None
    }
}

#[tactic(auto, using(crate::proofs::NoEvents::no_call, crate::proofs::NoEvents::no_arguments))]
fn call(alloc: Global, text: &[u8]) -> Result<Option<EventLine>, NoMemory>
    ensures { IfOk result (IsKindRead (codes "call") (parts_of text.now)) }
{
    let Some((caller, object, op, rest)) = called(text) else {
        return Ok(None);
    };
    match arguments(alloc, rest)? {
        Some(args) => Ok(Some(EventLine::Call {
            caller,
            object: Word::of(object),
            op: Word::of(op),
            args,
        })),
        None => Ok(None),
    }
}

#[tactic(auto, using(crate::proofs::Fronts::no_called))]
// What a call's line has before its arguments.
fn called(text: &[u8]) -> Option<(Caller, &[u8], &[u8], &[u8])>
    ensures { MatchOption result
        ((c : Caller) (object op : List ℕ) (rest : Fields)
        → IsCalled (parts_of text.now) c object op rest → ⊥)
        (λ x. IsCalled (parts_of text.now) x.0 x.1.now x.2.now (parts_of x.3.now)) }
{
    let Some((caller, rest)) = after_caller(text) else {
        return None;
    };
    let (object, rest) = after_name(rest)?;
    let (op, remaining) = after_name(rest)?;
    Some((caller, object, op, remaining))
}

#[tactic(auto, using(crate::proofs::NoEvents::no_begin))]
fn begin(alloc: Global, text: &[u8]) -> Result<Option<EventLine>, NoMemory>
    ensures { IfOk result (IsKindRead (codes "begin") (parts_of text.now)) }
{
    let Some((caller, rest)) = after_caller(text) else {
        return Ok(None);
    };
    let Some((txn, rest)) = after_name(rest) else {
        return Ok(None);
    };
    if is_end(rest) {
        return Ok(None);
    }
    match names(alloc, rest)? {
        Some(objects) => Ok(Some(EventLine::Begin {
            caller,
            txn: Word::of(txn),
            objects,
        })),
        None => Ok(None),
    }
}

fn commit(text: &[u8]) -> Option<EventLine>
    ensures { IsKindRead (codes "commit") (parts_of text.now) result }
{
    let (caller, remaining) = after_caller(text)?;
    if is_end(remaining) {
        Some(EventLine::Commit(caller))
    } else {
        None
    }
}

#[tactic(auto, using(crate::proofs::NoEvents::no_deliver))]
fn deliver(text: &[u8]) -> Option<EventLine>
    ensures { IsKindRead (codes "deliver") (parts_of text.now) result }
{
    match one_number(text) {
        Some(number) => Some(EventLine::Deliver(number)),
        None => None,
    }
}

#[tactic(auto, using(crate::proofs::NoEvents::no_repeat))]
fn repeat(text: &[u8]) -> Option<EventLine>
    ensures { IsKindRead (codes "repeat") (parts_of text.now) result }
{
    match one_number(text) {
        Some(number) => Some(EventLine::Repeat(number)),
        None => None,
    }
}

#[tactic(auto, using(crate::proofs::NoEvents::no_lose))]
fn lose(text: &[u8]) -> Option<EventLine>
    ensures { IsKindRead (codes "lose") (parts_of text.now) result }
{
    match one_number(text) {
        Some(number) => Some(EventLine::Lose(number)),
        None => None,
    }
}

#[tactic(auto, using(crate::proofs::NoEvents::no_effect, crate::proofs::NoEvents::no_sender, crate::proofs::NoEvents::no_receiver))]
fn resend(text: &[u8]) -> Option<EventLine>
    ensures { IsKindRead (codes "resend") (parts_of text.now) result }
{
    let Some((effect, rest)) = after_number(text) else {
        return None;
    };
    let rest = after_word(rest, b"from")?;
    let Some((from, rest)) = after_number(rest) else {
        return None;
    };
    let rest = after_word(rest, b"to")?;
    let Some(to) = one_number(rest) else {
        return None;
    };
    Some(EventLine::Resend { effect, from, to })
}

#[tactic(auto, using(crate::proofs::NoEvents::no_join, crate::proofs::NoEvents::no_near))]
fn join(text: &[u8]) -> Option<EventLine>
    ensures { IsKindRead (codes "join") (parts_of text.now) result }
{
    let Some((copy, rest)) = how(text) else {
        return None;
    };
    let Some(near) = one_number(rest) else {
        return None;
    };
    Some(EventLine::Join { near, copy })
}

#[tactic(auto, using(crate::proofs::NoEvents::no_how))]
// How a replica joins.
fn how(text: &[u8]) -> Option<(bool, &[u8])>
    ensures { MatchOption result
        ((copy : Bool) (rest : Fields) → parts_of text.now ≡ join_word copy ∷ rest → ⊥)
        (λ x. parts_of text.now ≡ join_word x.0 ∷ parts_of x.1.now) }
{
    if let Some(rest) = after_word(text, b"copy") {
        return Some((true, rest));
    }
    match after_word(text, b"bare") {
        Some(rest) => Some((false, rest)),
        None => None,
    }
}

fn partition(alloc: Global, text: &[u8]) -> Result<Option<EventLine>, NoMemory>
    ensures { IfOk result (IsKindRead (codes "partition") (parts_of text.now)) }
{
    match numbers(alloc, text)? {
        Some(groups) => Ok(Some(EventLine::Partition(groups))),
        None => Ok(None),
    }
}
