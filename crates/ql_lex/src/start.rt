ghost use Rattle.std.specs.Prelude.{◌≡◌, ◌<◌, ◌≤◌, true, length, slice_index};
ghost use Rattle.std.specs.List.{prefix_len};
ghost use Rattle.ql_base.specs.Bytes.{is_digit, is_lower, is_text_byte, is_word_byte, begins};
ghost use Rattle.ql_lex.specs.Bytes.{is_in_line, is_quote};

use crate::marks::{is_mark_byte, is_mark_pair};
use crate::token::TokenKind;
use ql_base::{
    MAX_NAME_BYTES, MAX_TEXT_BYTES, digit_bytes, is_keyword, is_text_byte, is_word_byte,
    name_bytes, number_of,
};

const HASH: u8 = b'#';

const QUOTE: u8 = b'"';

const MOST_NUMBER: u64 = 9_223_372_036_854_775_807;

// What a text starts with, and its length or the offset of its fault, in bytes.
#[derive(Clone, Copy)]
pub enum Start {
    Gap(usize),
    Lexeme(TokenKind, usize),
    NoToken(usize),
    TooLong,
    NoNumber,
}

impl Start {
    ghost use Rattle.ql_lex.specs.Starts.{StartsWith, BeginsNothing};
    ghost use Rattle.ql_lex.specs.Tokens.{FitsIn};

    // What a text that isn't empty starts with.
    #[tactic(auto, using(crate::proofs::Classes::blank_is, crate::proofs::Within::front_within), unfolding(ql_base::specs::Bytes::is_blank, ql_base::specs::Bytes::is_lower, ql_base::specs::Bytes::is_digit))]
    pub(crate) fn of(text: &[u8]) -> Start
        requires { 0 < length text.now }
        ensures kind { StartsWith text.now result }
        ensures within { FitsIn (length text.now) result }
    {
        match text[0] {
            b' ' | b'\t' | b'\n' | b'\r' => Start::Gap(1),
            HASH => Start::comment(text),
            b'a'..=b'z' => Start::word(text),
            b'0'..=b'9' => Start::number(text),
            QUOTE => Start::quoted(text),
            _ => Start::mark(text),
        }
    }

    #[tactic(auto, using(crate::proofs::Classes::comment_is))]
    fn comment(text: &[u8]) -> Start
        requires some { 0 < length text.now }
        requires first { slice_index text.now 0 ≡ HASH }
        ensures { StartsWith text.now result }
    {
        Start::Gap(line_bytes(&text[1..]) + 1)
    }

    #[tactic(auto, using(crate::proofs::Classes::word_begins, crate::proofs::Classes::name_is, crate::proofs::Classes::keyword_is, crate::proofs::Classes::long_name_is))]
    fn word(text: &[u8]) -> Start
        requires some { 0 < length text.now }
        requires first { is_lower (slice_index text.now 0) ≡ true }
        ensures { StartsWith text.now result }
    {
        let len = name_bytes(text);
        if is_keyword(&text[..len]) {
            Start::Lexeme(TokenKind::Keyword, len)
        } else if len <= MAX_NAME_BYTES {
            Start::Lexeme(TokenKind::Name, len)
        } else {
            Start::TooLong
        }
    }

    #[tactic(auto, using(crate::proofs::Classes::int_is, crate::proofs::Classes::no_int_is, crate::proofs::Classes::digits_fit))]
    fn number(text: &[u8]) -> Start
        requires some { 0 < length text.now }
        requires first { is_digit (slice_index text.now 0) ≡ true }
        ensures { StartsWith text.now result }
    {
        let (digits, rest) = text.split_at(digit_bytes(text));
        if begins_word(rest) {
            return Start::NoNumber;
        }
        match number_of(digits, MOST_NUMBER) {
            Some(_) => Start::Lexeme(TokenKind::Int, digits.len()),
            None => Start::NoNumber,
        }
    }

    #[tactic(auto, using(crate::proofs::Classes::tail_is, crate::proofs::Classes::long_text_is, crate::proofs::Classes::text_is, crate::proofs::Classes::no_text_is))]
    fn quoted(text: &[u8]) -> Start
        requires some { 0 < length text.now }
        requires first { slice_index text.now 0 ≡ QUOTE }
        ensures { StartsWith text.now result }
    {
        let (inside, rest) = text[1..].split_at(text_bytes(&text[1..]));
        if inside.len() > MAX_TEXT_BYTES {
            Start::TooLong
        } else if begins_quote(rest) {
            Start::Lexeme(TokenKind::Text, inside.len() + 2)
        } else {
            Start::NoToken(inside.len() + 1)
        }
    }

    #[tactic(auto, using(crate::proofs::Classes::pair_is, crate::proofs::Classes::no_pair, crate::proofs::Classes::no_second, crate::proofs::Classes::mark_is, crate::proofs::Classes::stray_is))]
    fn mark(text: &[u8]) -> Start
        requires some { 0 < length text.now }
        requires first { BeginsNothing (slice_index text.now 0) }
        ensures { StartsWith text.now result }
    {
        if text.len() > 1 && is_mark_pair(text[0], text[1]) {
            Start::Lexeme(TokenKind::Mark, 2)
        } else if is_mark_byte(text[0]) {
            Start::Lexeme(TokenKind::Mark, 1)
        } else {
            Start::NoToken(0)
        }
    }
}

// The number of bytes before the end of the line.
fn line_bytes(text: &[u8]) -> usize
    ensures longest { result ≡ prefix_len is_in_line text.now }
    ensures within { result ≤ length text.now }
{
    text.iter().take_while(|b| **b != b'\n').count()
}

// The length of the longest prefix that a text may contain.
fn text_bytes(text: &[u8]) -> usize
    ensures longest { result ≡ prefix_len is_text_byte text.now }
    ensures within { result ≤ length text.now }
{
    text.iter().take_while(|b| is_text_byte(**b)).count()
}

// Whether the text continues with a byte that may not directly follow a number.
fn begins_word(text: &[u8]) -> bool
    ensures { result ≡ begins is_word_byte text.now }
{
    match text.first() {
        Some(b) => is_word_byte(*b),
        None => false,
    }
}

// Whether the text continues with a quote.
fn begins_quote(text: &[u8]) -> bool
    ensures { result ≡ begins is_quote text.now }
{
    match text.first() {
        Some(b) => *b == QUOTE,
        None => false,
    }
}
