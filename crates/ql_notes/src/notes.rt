// The note on how a call ended.

use crate::contracts::push_absent_operations;
use crate::excerpt::File;
use crate::lines::push_line_fault;
use crate::pieces::{nth_of, pieces, tokens_of};
use crate::refusals::{push_order, push_refusal};
use crate::sources::{Reading, push_source_fault};
use crate::text::Text;
use crate::usage::push_usage;
use crate::verdicts::{push_failing, push_no_level, push_strong};
use crate::words::is;
use ql_base::NoMemory;
use ql_reply::{Cause, Ended, Fault, Part, Status};
use std::alloc::Global;

/// A note on how a call ended, for these arguments: for a fault in a file, its position and the rule; for arguments that
/// don't ask for anything, what is wrong with them and the usage; and for an answer that isn't yes, what it means. Empty
/// where there is nothing to say.
pub fn note(alloc: Global, words: &Vec<String>, ended: &Ended) -> Result<Vec<u8>, NoMemory> {
    let mut note = Text::new(alloc);
    match (ended.status, ended.cause) {
        (Status::Usage, _) => push_usage(&mut note, words),
        (Status::TooLarge, Cause::TooMuch) => note.push(
            b"note: every choice of effects is tried, and the work may be at most 20000000: fewer effects or variables need less\n",
        ),
        (Status::TooLarge, _) => note.push(
            b"note: a source, a schedule, a proof, a stored answer or a file of `holds` may have at most 1 MiB, and a certificate or an execution at most 64 MiB\n",
        ),
        (_, Cause::Fault(fault)) => push_bad_file(alloc, &mut note, words, ended, fault)?,
        (_, cause) => push_verdict(alloc, &mut note, words, ended, cause)?,
    }
    note.whole()
}

// The file at an index among the arguments after the command and its options.
fn file_of<'a>(words: &'a Vec<String>, number: usize, text: &'a [u8]) -> File<'a> {
    let mut count = 0usize;
    let mut is_operand = false;
    let mut name = b"".as_slice();
    for word in words.iter().skip(1) {
        let word = word.as_bytes();
        if !is_operand && !word.starts_with(b"-") {
            if count == number {
                name = word;
            }
            count = count.saturating_add(1);
        }
        is_operand = is(word, b"--baseline");
    }
    File { name, text }
}

// The name of the file after `--baseline`, if there is one.
fn baseline_of(words: &Vec<String>) -> Option<&[u8]> {
    let mut is_operand = false;
    for word in words.iter() {
        if is_operand {
            return Some(word.as_bytes());
        }
        is_operand = is(word.as_bytes(), b"--baseline");
    }
    None
}

// Appends a note on a faulty file.
fn push_bad_file(
    alloc: Global,
    note: &mut Text,
    words: &Vec<String>,
    ended: &Ended,
    fault: Fault,
) -> Result<(), NoMemory> {
    let (first, second) = (ended.first.as_slice(), ended.second.as_slice());
    let baseline = baseline_of(words);
    let file = match (fault.part, baseline) {
        (Part::Source, Some(_)) => file_of(words, 0, second),
        (Part::Source | Part::Holds | Part::Proof, _) => file_of(words, 0, first),
        (Part::Baseline, _) => File {
            name: baseline.unwrap_or(b""),
            text: first,
        },
        _ => file_of(words, 1, second),
    };
    if matches!(fault.part, Part::Source) {
        return push_source_fault(alloc, note, file, fault);
    }
    let tokens = tokens_of(alloc, first)?;
    push_line_fault(alloc, note, file, fault, &pieces(alloc, first, &tokens)?)
}

// Appends a note on an answer that isn't about a faulty file.
fn push_verdict(
    alloc: Global,
    note: &mut Text,
    words: &Vec<String>,
    ended: &Ended,
    cause: Cause,
) -> Result<(), NoMemory> {
    let first = file_of(words, 0, &ended.first);
    let second = file_of(words, 1, &ended.second);
    let is_alone = second.name.is_empty();
    let tokens = tokens_of(alloc, first.text)?;
    let pieces = pieces(alloc, first.text, &tokens)?;
    let source = Reading {
        file: first,
        text: first.text,
        tokens: &tokens,
        pieces: &pieces,
        before: 0,
        from: 0,
    };
    let last = if is_alone { first } else { second };
    let of_execution = if is_alone { None } else { Some(&source) };
    match cause {
        Cause::NoLevelOfOp(op) => push_no_level(
            note,
            &source,
            nth_of(source.pieces, b"op", op.0 as u64),
        ),
        Cause::NoLevelOfTxn(txn) => push_no_level(
            note,
            &source,
            nth_of(source.pieces, b"transaction", txn.0 as u64),
        ),
        Cause::StrongInTxn(txn, op) => push_strong(note, &source, txn.0 as u64, op.0 as u64),
        Cause::Order(number) => push_order(note, last, &source, number),
        Cause::Refused(refused) => push_refusal(note, last, &source, refused),
        Cause::FailsAt(number) => push_failing(note, last, of_execution, number, false),
        Cause::FailsIn(number) => push_failing(note, last, of_execution, number, true),
        Cause::Holds => push_absent_operations(alloc, note, first)?,
        Cause::Text | Cause::Fault(_) | Cause::TooMuch => {}
    }
    Ok(())
}
