ghost use Rattle.std.specs.Prelude.{◌≡◌, ◌≤◌, suc, ◌∷◌, [], List, ℕ, IsTrue, MatchOption, length, ◌↔◌};
ghost use Rattle.std.specs.List.{prefix_len};
ghost use Rattle.ql_base.specs.Names.{IsName};
ghost use Rattle.ql_base.specs.Numbers.{IsNumeral};
ghost use Rattle.ql_lines.specs.Fields.{Fields};
ghost use Rattle.ql_schedule.specs.Numbers.{IsNumber};
ghost use Rattle.ql_schedule.specs.Parts.{isn't_space, part_len, parts_of, quoted_len, text_len};

use ql_base::{digit_bytes, is_name, number_of};
use ql_lines::{after_spaces, bytes_before};

/// The first part of a line and what follows it.
pub(crate) fn first_part(text: &[u8]) -> Option<(&[u8], &[u8])>
    ensures first { MatchOption result (parts_of text.now ≡ [])
        (λ x. parts_of text.now ≡ x.0.now ∷ parts_of x.1.now) }
    ensures shorter { MatchOption result (Unit {0}) (λ x. suc (length x.1.now) ≤ length text.now) }
{
    let start = after_spaces(text);
    if start.is_empty() {
        return None;
    }
    Some(start.split_at(part_bytes(start)))
}

// The length in bytes of the part at the start. If it begins with a quote, it extends at least to the next
// quote.
fn part_bytes(text: &[u8]) -> usize
    ensures all { result ≡ part_len text.now }
    ensures within { result ≤ length text.now }
{
    let quoted = quoted_bytes(text);
    quoted + bytes_before_space(&text[quoted..])
}

// How many bytes there are before the first space.
fn bytes_before_space(text: &[u8]) -> usize
    ensures longest { result ≡ prefix_len isn't_space text.now }
    ensures within { result ≤ length text.now }
{
    bytes_before(text, b' ')
}

// The length in bytes of the quoted text at the start: a quote and everything up to the next one. 0 without a quote.
fn quoted_bytes(text: &[u8]) -> usize
    ensures all { result ≡ quoted_len text.now }
    ensures within { result ≤ length text.now }
{
    if text.is_empty() || text[0] != b'"' {
        0
    } else {
        text_bytes(&text[1..]) + 1
    }
}

// How many bytes there are up to and including the next quote. Without a quote, all of them.
fn text_bytes(text: &[u8]) -> usize
    ensures all { result ≡ text_len text.now }
    ensures within { result ≤ length text.now }
{
    let before = bytes_before(text, b'"');
    if before == text.len() {
        before
    } else {
        before + 1
    }
}

/// Whether a line has no parts.
pub(crate) fn is_end(text: &[u8]) -> bool
    ensures { IsTrue result ↔ (parts_of text.now ≡ []) }
{
    first_part(text).is_none()
}

/// What follows the first part, if that is this word.
pub(crate) fn after_word<'a>(text: &'a [u8], word: &[u8]) -> Option<&'a [u8]>
    ensures { MatchOption result ((rest : Fields) → parts_of text.now ≡ word.now ∷ rest → ⊥)
        (λ remaining. parts_of text.now ≡ word.now ∷ parts_of remaining.now) }
{
    let (first, remaining) = first_part(text)?;
    if first == word { Some(remaining) } else { None }
}

/// The first part, if it is a name, and what follows it.
pub(crate) fn after_name(text: &[u8]) -> Option<(&[u8], &[u8])>
    ensures { MatchOption result
        ((name : List ℕ) (rest : Fields) → IsName name → parts_of text.now ≡ name ∷ rest → ⊥)
        (λ x. IsName x.0.now × (parts_of text.now ≡ x.0.now ∷ parts_of x.1.now)) }
{
    let (first, remaining) = first_part(text)?;
    if is_name(first) {
        Some((first, remaining))
    } else {
        None
    }
}

#[tactic(auto, using(crate::proofs::Fronts::no_other_first))]
/// The number that the first part spells, if it is one, and what follows it.
pub(crate) fn after_number(text: &[u8]) -> Option<(u64, &[u8])>
    ensures { MatchOption result
        ((field : List ℕ) (n : ℕ) (rest : Fields) → IsNumber field n
        → parts_of text.now ≡ field ∷ rest → ⊥)
        (λ x. (field : List ℕ) × IsNumber field x.0
        × (parts_of text.now ≡ field ∷ parts_of x.1.now)) }
{
    let (first, remaining) = first_part(text)?;
    let Some(number) = number(first) else {
        return None;
    };
    Some((number, remaining))
}

/// The number that a part spells. Any number that 32 bits can't hold is returned as 2^32.
pub(crate) fn number(field: &[u8]) -> Option<u64>
    ensures { MatchOption result ((n : ℕ) → IsNumber field.now n → ⊥) (λ n. IsNumber field.now n) }
{
    if let Some(small) = number_of(field, u64::from(u32::MAX)) {
        return Some(small);
    }
    if is_numeral(field) {
        Some(TOO_GREAT)
    } else {
        None
    }
}

/// Stands for any number that 32 bits can't hold.
pub(crate) const TOO_GREAT: u64 = 1 << 32;

/// Whether a text is digits without a leading zero.
pub(crate) fn is_numeral(text: &[u8]) -> bool
    ensures { IsTrue result ↔ IsNumeral text.now }
{
    digit_bytes(text) == text.len() && (text.len() == 1 || text.len() > 1 && text[0] != b'0')
}
