// The tokens of a source as words.

use crate::words::{has_word, is};
use ql_base::{MAX_SOURCE_BYTES, NoMemory};
use ql_lex::{LexFault, Token, tokens};
use std::alloc::Global;

// The words with which the parts of a source begin.
const PARTS: &[u8] = b"type state op contract answer emit when apply transaction uses";

/// The tokens of a text, empty where some of it isn't a token, or where it is longer than a source.
pub(crate) fn tokens_of(alloc: Global, text: &[u8]) -> Result<Vec<Token>, NoMemory> {
    if text.len() > MAX_SOURCE_BYTES as usize {
        return Ok(Vec::new(alloc));
    }
    match tokens(alloc, text) {
        Ok(found) => Ok(found),
        Err(LexFault::NoMemory) => Err(NoMemory),
        Err(_) => Ok(Vec::new(alloc)),
    }
}

/// The bytes of tokens, in order.
pub(crate) fn pieces<'a>(
    alloc: Global,
    text: &'a [u8],
    found: &[Token],
) -> Result<Vec<&'a [u8]>, NoMemory> {
    let mut pieces = Vec::new(alloc);
    for token in found {
        let (from, to) = (token.from as usize, token.to as usize);
        pieces.push(text.get(from..to).unwrap_or(b""))?;
    }
    Ok(pieces)
}

/// The piece at an index, empty where there is none.
pub(crate) fn piece<'a>(pieces: &[&'a [u8]], k: usize) -> &'a [u8] {
    match pieces.get(k) {
        Some(piece) => *piece,
        None => b"",
    }
}

/// The piece after an index, empty where there is none.
pub(crate) fn piece_after<'a>(pieces: &[&'a [u8]], k: usize) -> &'a [u8] {
    piece(pieces, k.saturating_add(1))
}

/// The piece before an index; at the index 0 the first piece itself.
pub(crate) fn piece_before<'a>(pieces: &[&'a [u8]], k: usize) -> &'a [u8] {
    piece(pieces, k.saturating_sub(1))
}

/// The last piece up to an index, inclusive, that is one of some words.
pub(crate) fn last_of(pieces: &[&[u8]], k: usize, words: &[u8]) -> Option<usize> {
    let mut found = None;
    for (j, piece) in pieces.iter().enumerate() {
        if j <= k && has_word(words, piece) {
            found = Some(j);
        }
    }
    found
}

/// The first piece from an index on that is one of some words.
pub(crate) fn next_of(pieces: &[&[u8]], k: usize, words: &[u8]) -> Option<usize> {
    for (j, piece) in pieces.iter().enumerate() {
        if k <= j && has_word(words, piece) {
            return Some(j);
        }
    }
    None
}

/// The piece that is the occurrence of a word with a number, from 0.
pub(crate) fn nth_of(pieces: &[&[u8]], word: &[u8], number: u64) -> Option<usize> {
    let mut count = 0u64;
    for (k, piece) in pieces.iter().enumerate() {
        if *piece == word {
            if count == number {
                return Some(k);
            }
            count = count.saturating_add(1);
        }
    }
    None
}

/// A part of the pieces, and the words after which a name in it is declared.
#[derive(Clone, Copy)]
pub(crate) struct Span<'x> {
    pub(crate) from: usize,
    pub(crate) to: usize,
    pub(crate) after: &'x [u8],
}

impl Span<'_> {
    /// Whether a piece is a name that is declared there: one of the words comes right before it, and where a comma or a
    /// bracket may, a kind comes after it.
    pub(crate) fn has(&self, pieces: &[&[u8]], j: usize) -> bool {
        self.from < j
            && j < self.to
            && has_word(self.after, piece_before(pieces, j))
            && (!has_word(self.after, b"(") || is(piece_after(pieces, j), b":"))
    }

    /// Appends the names that are declared there.
    pub(crate) fn push_names<'a>(
        &self,
        names: &mut Vec<&'a [u8]>,
        pieces: &[&'a [u8]],
    ) -> Result<(), NoMemory> {
        for (j, name) in pieces.iter().enumerate() {
            if self.has(pieces, j) {
                names.push(*name)?;
            }
        }
        Ok(())
    }

    /// The first piece there that declares a name.
    pub(crate) fn find(&self, pieces: &[&[u8]], name: &[u8]) -> Option<usize> {
        for (j, other) in pieces.iter().enumerate() {
            if *other == name && self.has(pieces, j) {
                return Some(j);
            }
        }
        None
    }
}

/// The whole of the pieces.
pub(crate) fn anywhere<'x>(pieces: &[&[u8]], after: &'x [u8]) -> Span<'x> {
    Span {
        from: 0,
        to: pieces.len(),
        after,
    }
}

/// The type around a token.
pub(crate) fn type_at<'a>(source: &[&'a [u8]], k: usize) -> &'a [u8] {
    match last_of(source, k, b"type") {
        Some(start) => piece_after(source, start),
        None => b"",
    }
}

/// The word that begins the part of a source around a piece, and its index.
pub(crate) fn part_of<'a>(pieces: &[&'a [u8]], k: usize) -> (&'a [u8], usize) {
    let start = last_of(pieces, k, PARTS).unwrap_or(0);
    (piece(pieces, start), start)
}

/// Whether a piece is one of the operations of a variable.
pub(crate) fn is_chosen(pieces: &[&[u8]], k: usize) -> bool {
    is(part_of(pieces, k).0, b"contract") && has_word(b": |", piece_before(pieces, k))
}
