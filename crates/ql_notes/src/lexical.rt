// Why bytes of a source aren't a token.

use crate::excerpt::{File, Spot};
use crate::text::Text;
use ql_base::{digit_bytes, is_word_byte};
use ql_reply::Rule;

/// The bytes with which some editors begin a file.
pub(crate) const BYTE_ORDER_MARK: &[u8] = b"\xEF\xBB\xBF";

/// Whether a rule is about tokens.
pub(crate) fn is_lexical(rule: Rule) -> bool {
    matches!(rule, Rule::BadChar | Rule::LongWord | Rule::BadNumber)
}

/// Appends a note on the bytes at an offset of a file, which aren't a token by a rule. The answer may report
/// another one.
pub(crate) fn push_lexical_fault(
    note: &mut Text,
    file: File,
    at: usize,
    rule: Rule,
    reported: Rule,
) {
    let rest = file.text.get(at..).unwrap_or(b"");
    let quote = open_quote(file.text, at);
    let spot = match rule {
        Rule::BadChar => spot_of_byte(rest, at, quote),
        Rule::LongWord if rest.starts_with(b"\"") => Spot {
            from: at,
            bytes: text_bytes(rest).saturating_add(2),
        },
        _ => Spot {
            from: at,
            bytes: word_bytes(rest),
        },
    };
    note.begin_fault(file, spot, reported.name());
    match rule {
        Rule::BadChar => push_bad_byte(note, rest, quote.is_some()),
        Rule::LongWord => push_long(note, rest),
        _ => note.push(bad_number(rest)),
    }
    note.end_fault(file, spot);
}

// A wrong byte at an offset, or the text that it ends.
fn spot_of_byte(rest: &[u8], at: usize, quote: Option<usize>) -> Spot {
    match quote {
        Some(from) if is_line_end(rest) => Spot {
            from,
            bytes: at.saturating_sub(from),
        },
        _ if rest.starts_with(BYTE_ORDER_MARK) => Spot { from: at, bytes: 3 },
        _ => Spot { from: at, bytes: 1 },
    }
}

// Whether a line ends before some bytes.
fn is_line_end(rest: &[u8]) -> bool {
    matches!(rest.first(), None | Some(b'\n' | b'\r'))
}

// Appends why the first of some bytes is wrong.
fn push_bad_byte(note: &mut Text, rest: &[u8], is_text: bool) {
    let byte = rest.first().copied().unwrap_or(b'\n');
    if is_text && is_line_end(rest) {
        note.push(b"this text has no closing `\"` on the same line");
    } else if rest.starts_with(BYTE_ORDER_MARK) {
        note.push(b"a byte order mark isn't allowed: save the file as UTF-8 without one");
    } else if is_text {
        push_byte(note, b"", byte);
        note.push(
            b" isn't allowed in a text, which may have bytes from space to `~` except `\"` and `\\`",
        );
    } else {
        push_byte(note, b"no token begins with ", byte);
        note.push(advice(byte));
    }
}

// Appends some words, and a printable byte in quotes, or any other byte as a number.
fn push_byte(said: &mut Text, before: &[u8], byte: u8) {
    said.push(before);
    if 33 <= byte && byte <= 126 {
        said.push_filled(b"`%`", &[&[byte]])
    } else {
        said.push_counted(b"the byte #", &[], &[byte as u64])
    }
}

// What to write instead of a byte with which no token begins.
fn advice(byte: u8) -> &'static [u8] {
    match byte {
        b'A'..=b'Z' => b": names and keywords are in lower case",
        b'_' => b": a name begins with a lower-case letter",
        b'/' => b": a comment begins with `#`, `/\\` joins contracts, and there is no division",
        b'\\' => b": `\\/` joins contracts, and `or` joins expressions",
        b'\'' | b'`' => b": a text is written in double quotes",
        b'!' => b": `!=` means not equal, and `not` negates, both only in expressions",
        b'%' => b": there is no division, only `+`, `-` and `*`",
        b'-' | b'>' => b": `=>` means implies",
        128..=255 => b": only comments may contain characters other than ASCII",
        _ => b"",
    }
}

// The offset of the quote that is open at an offset, if there is one.
fn open_quote(text: &[u8], at: usize) -> Option<usize> {
    let mut quote = None;
    let mut is_comment = false;
    for (k, byte) in text.iter().take(at).enumerate() {
        if is_comment {
            is_comment = *byte != b'\n';
        } else if *byte == b'"' {
            quote = if quote.is_none() { Some(k) } else { None };
        } else if *byte == b'#' {
            is_comment = quote.is_none();
        }
    }
    quote
}

// Appends how long a name or a text is.
fn push_long(note: &mut Text, rest: &[u8]) {
    let (what, bytes, most): (&[u8], usize, u64) = if rest.starts_with(b"\"") {
        (b"text", text_bytes(rest), 64)
    } else {
        (b"name", word_bytes(rest), 32)
    };
    note.push_counted(
        b"this % is # bytes long, but at most # are allowed",
        &[what],
        &[bytes as u64, most],
    );
}

// How many bytes there are between the quotes of a text.
fn text_bytes(rest: &[u8]) -> usize {
    rest.iter()
        .skip(1)
        .take_while(|byte| **byte != b'"')
        .count()
}

// How many letters, digits and `_` the bytes begin with.
fn word_bytes(rest: &[u8]) -> usize {
    rest.iter().take_while(|byte| is_word_byte(**byte)).count()
}

// Why bytes that begin with a digit aren't a number.
fn bad_number(rest: &[u8]) -> &'static [u8] {
    if digit_bytes(rest) < word_bytes(rest) {
        b"a letter follows this number directly: separate them by a space, or begin the name with a letter"
    } else if rest.starts_with(b"0") {
        b"a number can't have leading zeros"
    } else {
        b"a number is at most 9223372036854775807"
    }
}
