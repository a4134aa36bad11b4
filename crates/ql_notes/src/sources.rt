// Notes on a source, and on the contract of a `holds` file as a part of one.

use crate::advice::push_advice;
use crate::clashes::{Clash, clash_at, push_clash};
use crate::excerpt::{File, Spot};
use crate::kinds_of_files::push_kind_of_file;
use crate::lexical::{is_lexical, push_lexical_fault};
use crate::names::{declaration_of, first_of, push_known, push_unknown};
use crate::pieces::{part_of, piece, pieces, tokens_of};
use crate::syntax::push_syntax;
use crate::text::Text;
use crate::words::row;
use ql_base::{MAX_SOURCE_BYTES, NoMemory};
use ql_lex::Token;
use ql_parse::{ParseFault, parse_program};
use ql_reply::{Fault, Rule};
use std::alloc::Global;

/// Appends a note on a source's fault.
pub(crate) fn push_source_fault(
    alloc: Global,
    note: &mut Text,
    file: File,
    fault: Fault,
) -> Result<(), NoMemory> {
    let at = fault.at as usize;
    if is_lexical(fault.rule) {
        push_lexical_fault(note, file, at, fault.rule, fault.rule);
        push_kind_of_file(note, file.text, fault.part);
        return Ok(());
    }
    let tokens = tokens_of(alloc, file.text)?;
    let pieces = pieces(alloc, file.text, &tokens)?;
    let source = Reading {
        file,
        text: file.text,
        tokens: &tokens,
        pieces: &pieces,
        before: 0,
        from: 0,
    };
    push_fault_at(alloc, note, &source, at, fault.rule, fault.rule)?;
    if source.token_at(at) == 0 {
        push_kind_of_file(note, file.text, fault.part);
    }
    Ok(())
}

/// The text of a source, its tokens, and their bytes. Of a contract in a file, the text is a source around it.
#[derive(Clone, Copy)]
pub(crate) struct Reading<'a> {
    pub(crate) file: File<'a>,
    pub(crate) text: &'a [u8],
    pub(crate) tokens: &'a [Token],
    pub(crate) pieces: &'a [&'a [u8]],
    /// How many bytes of the text come before the contract, and the contract's offset in the file; 0 in a source.
    pub(crate) before: usize,
    pub(crate) from: usize,
}

impl Reading<'_> {
    // The offset in the file of an offset in the text.
    fn offset_in_file(&self, at: usize) -> usize {
        at.saturating_sub(self.before).saturating_add(self.from)
    }

    // The index of the token at an offset of the text.
    fn token_at(&self, at: usize) -> usize {
        for (k, token) in self.tokens.iter().enumerate() {
            if token.from as usize == at {
                return k;
            }
        }
        self.tokens.len()
    }

    /// The bytes of the token at an index; one byte at the end where there is none.
    pub(crate) fn spot(&self, k: usize) -> Spot {
        match self.tokens.get(k) {
            Some(token) => Spot {
                from: self.offset_in_file(token.from as usize),
                bytes: token.to.saturating_sub(token.from) as usize,
            },
            None => Spot {
                from: self.offset_in_file(self.text.len()),
                bytes: 1,
            },
        }
    }

    // Appends what is at a token, if there is one.
    fn push_place(&self, note: &mut Text, what: &[u8], k: Option<usize>) {
        if let Some(k) = k {
            note.push_place(what, self.file, self.spot(k).from);
        }
    }
}

/// Appends a note on the fault at an offset of a text by a rule of sources. The answer may report another rule.
pub(crate) fn push_fault_at(
    alloc: Global,
    note: &mut Text,
    source: &Reading,
    at: usize,
    rule: Rule,
    reported: Rule,
) -> Result<(), NoMemory> {
    let k = source.token_at(at);
    let pieces = source.pieces;
    let spot = Spot {
        from: source.offset_in_file(at),
        bytes: piece(pieces, k).len(),
    };
    note.begin_fault(source.file, spot, reported.name());
    if matches!(rule, Rule::Kind) {
        return push_wrong_kind(alloc, note, source, at, spot);
    }
    push_sentence(note, pieces, k, rule);
    note.end_fault(source.file, spot);
    match rule {
        Rule::Unknown => push_known(alloc, note, pieces, k)?,
        Rule::Unexpected if at <= source.text.len() && at <= MAX_SOURCE_BYTES as usize => {
            push_syntax(
                alloc,
                note,
                &source.text[..at],
                piece(pieces, k),
                source.before > 0,
            )?;
            push_advice(note, pieces, k);
        }
        Rule::Twice => source.push_place(note, b"  first declared at ", first_of(pieces, k)),
        _ => {}
    }
    Ok(())
}

// What is wrong with a token, by the rule that it breaks.
const RULES: &str = "Unexpected this isn't allowed here
Deep at most 64 brackets may be open at once, and this is the 65th: remove those that aren't needed
Wide an expression or a contract has at most 256 names, numbers, operators and calls, and this is the 257th: shorten it, or assign a part of it in a separate statement
Twice `%` is already declared or listed
Variables a contract has at most 5 variables, and this is the sixth
TxnClosure a transaction's contract can't use `%`: it may use `vis`, `so`, `soo`, `sameobj`, `eq`, `=` and `txn`
TxnAtom an operation's contract can't use `txn`: only a transaction's contract can";

// Limits by the word that is one too many, or that begins a part of a source which is too long.
const LIMITS: &str = "type a source has at most 16 types, and this is the 17th
op a source has at most 32 operations in all its types, and this is the 33rd
transaction a source has at most 16 transactions, and this is the 17th
in.state a type has at most 16 fields, and this is the 17th
in.op an operation has at most 8 parameters, and this is the ninth
in.emit an operation emits at most 4 values, and this is the fifth
in.apply an operation has at most 64 statements, and this is the 65th";

// Appends what is wrong at a token.
fn push_sentence(said: &mut Text, pieces: &[&[u8]], k: usize, rule: Rule) {
    let word = piece(pieces, k);
    match rule {
        Rule::Unknown => push_unknown(said, pieces, k),
        Rule::TooMany => said.push(limit_at(pieces, k)),
        _ if word.is_empty() => said.push(b"something is missing at the end"),
        _ => said.push_filled(row(RULES, rule.name().as_bytes()), &[word]),
    }
}

// The limit of a source that is exceeded at a token.
fn limit_at(pieces: &[&[u8]], k: usize) -> &'static [u8] {
    let declared = row(LIMITS, piece(pieces, k));
    if !declared.is_empty() {
        return declared;
    }
    match part_of(pieces, k).0.first() {
        Some(b's') => row(LIMITS, b"in.state"),
        Some(b'o') => row(LIMITS, b"in.op"),
        Some(b'e') => row(LIMITS, b"in.emit"),
        _ => row(LIMITS, b"in.apply"),
    }
}

// Ends a fault of kinds: which kind was found and which expected, and where the name at the offset is declared.
fn push_wrong_kind(
    alloc: Global,
    note: &mut Text,
    source: &Reading,
    at: usize,
    spot: Spot,
) -> Result<(), NoMemory> {
    if source.text.len() > MAX_SOURCE_BYTES as usize {
        return Ok(());
    }
    let program = match parse_program(alloc, source.text) {
        Ok(program) => program,
        Err(ParseFault::NoMemory) => return Err(NoMemory),
        Err(_) => return Ok(()),
    };
    let clash = clash_at(&program, at);
    match clash {
        Some(clash) => push_clash(note, clash),
        None => note.push(b"this doesn't have the kind that is expected here"),
    }
    note.end_fault(source.file, spot);
    if let Some(Clash::Kind { is_name: true, .. }) = clash {
        push_declaration(note, source, source.token_at(at));
    }
    Ok(())
}

// Appends where the name of the value at a token is declared.
fn push_declaration(note: &mut Text, source: &Reading, k: usize) {
    let first = declaration_of(source.pieces, k);
    if first.is_some() {
        note.push_filled(b"  `%`", &[piece(source.pieces, k)]);
        source.push_place(note, b" is declared at ", first);
    }
}
