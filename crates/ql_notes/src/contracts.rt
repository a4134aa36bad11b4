// Notes on the contract of a `holds` file.
ghost use Rattle.std.specs.Prelude.{◌<◌, ◌≤◌, ◌^◌, length};

use crate::excerpt::File;
use crate::lexical::{is_lexical, push_lexical_fault};
use crate::lines::Line;
use crate::pieces::{next_of, pieces, tokens_of};
use crate::place::line_of;
use crate::sources::{Reading, push_fault_at};
use crate::text::Text;
use crate::words::{find_line, has_word, is, is_among, is_line_start, word_of};
use ql_base::{Names, NoMemory};
use ql_lex::LexFault;
use ql_parse::{ParseFault, few_operations, parse_contract};
use ql_reply::Rule;
use ql_typing::{TypeFault, resolve};
use std::alloc::Global;

// The most bytes of a contract that gets a note.
const BYTES: usize = 65_536;

// What comes before a contract in a source around it.
const BEFORE: &[u8] = b"type t { op f(): unit { contract ";

// The text of the contract at an offset, up to the end of its line; empty where it is too long.
fn contract_at(text: &[u8], from: usize) -> &[u8]
    ensures { length result.now ≤ 65536 }
{
    let line = line_of(text.get(from..).unwrap_or(b""));
    if line.len() > BYTES { b"" } else { line }
}

/// Appends a note on a fault in the contract of a line.
pub(crate) fn push_contract_fault(
    alloc: Global,
    note: &mut Text,
    line: &Line,
) -> Result<(), NoMemory> {
    let word = line.spot(0);
    let from = word.from.saturating_add(word.bytes);
    let contract = contract_at(line.file.text, from);
    let (at, rule) = fault_in(alloc, contract)?;
    if is_lexical(rule) {
        let at = from.saturating_add(at);
        push_lexical_fault(note, line.file, at, rule, line.rule);
        return Ok(());
    }
    let text = [BEFORE, contract].concat(alloc)?;
    let tokens = tokens_of(alloc, &text)?;
    let pieces = pieces(alloc, &text, &tokens)?;
    let source = Reading {
        file: line.file,
        text: &text,
        tokens: &tokens,
        pieces: &pieces,
        before: BEFORE.len(),
        from,
    };
    let at = BEFORE.len().saturating_add(at);
    push_fault_at(alloc, note, &source, at, rule, line.rule)
}

// The first fault of a contract: its offset in the contract, and the rule that it breaks in a source.
fn fault_in(alloc: Global, contract: &[u8]) -> Result<(usize, Rule), NoMemory>
    requires { length contract.now < 2 ^ 32 }
{
    few_operations();
    match parse_contract(alloc, contract) {
        Ok(tree) => {
            let mut ops = Names::new(alloc);
            name_fault(resolve(alloc, &tree, &mut ops, false).err())
        }
        Err(fault) => parse_fault(fault),
    }
}

fn name_fault(fault: Option<TypeFault>) -> Result<(usize, Rule), NoMemory> {
    match fault {
        Some(TypeFault::NoMemory) => Err(NoMemory),
        Some(TypeFault::Unknown(at)) => Ok((at as usize, Rule::Unknown)),
        Some(TypeFault::Twice(at)) => Ok((at as usize, Rule::Twice)),
        Some(TypeFault::Variables(at)) => Ok((at as usize, Rule::Variables)),
        Some(TypeFault::TxnAtom(at)) => Ok((at as usize, Rule::TxnAtom)),
        _ => Ok((0, Rule::Unexpected)),
    }
}

fn parse_fault(fault: ParseFault) -> Result<(usize, Rule), NoMemory> {
    match fault {
        ParseFault::NoMemory | ParseFault::Lex(LexFault::NoMemory) => Err(NoMemory),
        ParseFault::Unexpected(at) => Ok((at as usize, Rule::Unexpected)),
        ParseFault::Deep(at) => Ok((at as usize, Rule::Deep)),
        ParseFault::Wide(at) => Ok((at as usize, Rule::Wide)),
        ParseFault::Lex(LexFault::BadChar(at)) => Ok((at as usize, Rule::BadChar)),
        ParseFault::Lex(LexFault::LongWord(at)) => Ok((at as usize, Rule::LongWord)),
        ParseFault::Lex(LexFault::BadNumber(at)) => Ok((at as usize, Rule::BadNumber)),
    }
}

/// Appends a note for each operation that the contract of a file names though no effect has it.
pub(crate) fn push_absent_operations(
    alloc: Global,
    note: &mut Text,
    file: File,
) -> Result<(), NoMemory> {
    let Some(from) = find_line(file.text, b"contract", 0, b"contract") else {
        return Ok(());
    };
    let contract = contract_at(file.text, from);
    let tokens = tokens_of(alloc, contract)?;
    let pieces = pieces(alloc, contract, &tokens)?;
    let source = Reading {
        file,
        text: contract,
        tokens: &tokens,
        pieces: &pieces,
        before: 0,
        from,
    };
    push_absent(note, &source, &operations(alloc, file.text)?);
    Ok(())
}

// The operations of the effects of a file.
fn operations(alloc: Global, text: &[u8]) -> Result<Vec<&[u8]>, NoMemory> {
    let mut names: Vec<&[u8]> = Vec::new(alloc);
    for k in 0..text.len() {
        if is_line_start(text, k) && is(word_of(line_of(&text[k..]), 0), b"effect") {
            names.push(word_of(line_of(&text[k..]), 3))?;
        }
    }
    Ok(names)
}

// The same for a contract, and the operations of the effects.
fn push_absent(note: &mut Text, source: &Reading, ops: &[&[u8]]) {
    let end = next_of(source.pieces, 0, b".").unwrap_or(0);
    let mut before = b"".as_slice();
    for (k, name) in source.pieces.iter().enumerate() {
        if k < end && has_word(b": |", before) && !is_among(ops, name) {
            let spot = source.spot(k);
            note.begin_fault(source.file, spot, "note");
            note.push(
                b"there is no effect of this operation, so the contract says nothing about it",
            );
            note.end_fault(source.file, spot);
        }
        before = *name;
    }
}
