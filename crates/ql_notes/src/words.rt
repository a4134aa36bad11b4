// Words and lines of a text.

use crate::place::line_of;

/// The bytes before the first space or line feed, and those after it.
pub(crate) fn word(text: &[u8]) -> (&[u8], &[u8]) {
    for k in 0..text.len() {
        if text[k] == b' ' || text[k] == b'\n' {
            return (&text[..k], &text[k + 1..]);
        }
    }
    (text, &text[text.len()..])
}

/// Whether a word is another one.
pub(crate) fn is(word: &[u8], other: &[u8]) -> bool {
    word == other
}

/// Whether a word of a text begins at an offset.
pub(crate) fn is_word_start(text: &[u8], k: usize) -> bool {
    k == 0 || (k <= text.len() && text[k - 1] == b' ')
}

/// Whether a word is one of those of a text.
pub(crate) fn has_word(text: &[u8], wanted: &[u8]) -> bool {
    for k in 0..text.len() {
        if is_word_start(text, k) && word(&text[k..]).0 == wanted {
            return true;
        }
    }
    false
}

/// Whether a word is one of some words.
pub(crate) fn is_among(words: &[&[u8]], wanted: &[u8]) -> bool {
    for word in words {
        if *word == wanted {
            return true;
        }
    }
    false
}

/// Whether a line of a text begins at an offset.
pub(crate) fn is_line_start(text: &[u8], k: usize) -> bool {
    k == 0 || (k <= text.len() && text[k - 1] == b'\n')
}

/// The rest of the line that begins with a word, in a table that has one on each line; empty where none does.
pub(crate) fn row(table: &'static str, key: &[u8]) -> &'static [u8] {
    let text = table.as_bytes();
    for k in 0..text.len() {
        if is_line_start(text, k) {
            let (first, rest) = word(&text[k..]);
            if first == key {
                return line_of(rest);
            }
        }
    }
    &text[text.len()..]
}

/// A line without the carriage return at its end.
pub(crate) fn without_return(line: &[u8]) -> &[u8] {
    line.strip_suffix(b"\r").unwrap_or(line)
}

/// The word of a line at an index, from 0.
pub(crate) fn word_of(line: &[u8], number: usize) -> &[u8] {
    let mut rest = without_blanks(line);
    for _ in 0..number {
        rest = without_blanks(word(rest).1);
    }
    without_return(word(rest).0)
}

/// The rest of a line from the first byte on that isn't a blank.
pub(crate) fn without_blanks(line: &[u8]) -> &[u8] {
    for k in 0..line.len() {
        if line[k] != b' ' && line[k] != b'\r' {
            return &line[k..];
        }
    }
    &line[line.len()..]
}

/// The offset of the first line that begins with a word and has another one at an index.
pub(crate) fn find_line(text: &[u8], first: &[u8], number: usize, word: &[u8]) -> Option<usize> {
    for k in 0..text.len() {
        if is_line_start(text, k) {
            let line = line_of(&text[k..]);
            if is(word_of(line, 0), first) && is(word_of(line, number), word) {
                return Some(k);
            }
        }
    }
    None
}

/// That line; empty where there is none.
pub(crate) fn line_with<'a>(text: &'a [u8], first: &[u8], number: usize, word: &[u8]) -> &'a [u8] {
    match find_line(text, first, number, word) {
        Some(k) if k < text.len() => line_of(&text[k..]),
        _ => b"",
    }
}
