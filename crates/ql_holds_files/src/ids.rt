ghost use Rattle.std.specs.Prelude.{not, ◌==◌, ◌≡◌, ◌≤◌, ◌<◌, ◌^◌, List, ℕ, IfOk, IfSome, MatchOption, decimal, map, length, take};
ghost use Rattle.std.specs.List.{AllByRecursion, AllPass};
ghost use Rattle.std.specs.Str.Parse.{digits_value};
ghost use Rattle.ql_base.specs.Bytes.{begins, is_digit};
ghost use Rattle.ql_base.specs.IdLists.{IsAscending};
ghost use Rattle.ql_lines.specs.Fields.{FirstField, IsId, fields_of, is_space};

use ql_base::{IdSet, NoMemory, is_digit};
use ql_lines::ascending_ids;
use std::alloc::Global;

/// The ascending ids that the fields of a text spell; `None` where a field is no id, or isn't above
/// the one before it.
///
/// Ids in their usual spelling are read in one pass over their bytes. Any other spelling is left to
/// `ascending_ids`.
pub(crate) fn seen_ids(alloc: Global, text: &[u8]) -> Result<Option<IdSet>, NoMemory>
    ensures { IfOk result
        (λ ids. MatchOption ids
        ((seen : List ℕ) → AllByRecursion IsId seen → IsAscending seen
        → fields_of text.now ≡ map decimal seen → ⊥)
        (λ seen. AllByRecursion IsId seen × IsAscending seen
        × (fields_of text.now ≡ map decimal seen))) }
{
    match short_ids(alloc, text)? {
        Some(ids) => Ok(Some(ids)),
        None => ascending_ids(alloc, text),
    }
}

// The ids of a text in the usual spelling: each after one space, with at most nine digits. `None` for
// another spelling, and where the ids don't ascend.
fn short_ids(alloc: Global, text: &[u8]) -> Result<Option<IdSet>, NoMemory>
    ensures { IfOk result
        (λ ids. IfSome ids (λ seen. AllByRecursion IsId seen × IsAscending seen
        × (fields_of text.now ≡ map decimal seen))) }
{
    let mut ids = IdSet::new(alloc);
    let mut last = 0;
    let mut rest = text;
    while let Some((id, after)) = short_id(rest) {
        if id <= last {
            return Ok(None);
        }
        ids.insert(id)?;
        last = id;
        rest = after;
    }
    if rest.is_empty() {
        Ok(Some(ids))
    } else {
        Ok(None)
    }
}

// An id of at most nine digits after one space, and the rest of the text. `None` where the text starts
// otherwise, and for an id that starts with 0.
fn short_id(text: &[u8]) -> Option<(u32, &[u8])>
    ensures { IfSome result (λ x. (x.0 < 2 ^ 32) × FirstField text.now (decimal x.0) x.1.now) }
{
    let (first, start) = text.split_first()?;
    if *first != b' ' {
        return None;
    }
    let (id, count) = leading_digits(start);
    let (digits, after) = start.split_at(count);
    if begins_above_zero(digits) && ends_field(after) {
        Some((id, after))
    } else {
        None
    }
}

// Whether there are digits, and the first isn't 0.
fn begins_above_zero(digits: &[u8]) -> bool
    ensures { result ≡ begins (λ b. not (b == 48)) digits.now }
{
    match digits.first() {
        Some(digit) => *digit != b'0',
        None => false,
    }
}

// Whether a field ends before this text.
fn ends_field(text: &[u8]) -> bool
    ensures { result ≡ not (begins (λ b. not (is_space b)) text.now) }
{
    match text.first() {
        Some(byte) => *byte == b' ',
        None => true,
    }
}

// The value of the digits at the start, of which at most nine are read, and their count.
fn leading_digits(text: &[u8]) -> (u32, usize)
    ensures within { result.1 ≤ length text.now }
    ensures digits { AllPass is_digit (take result.1 text.now) }
    ensures value { result.0 ≡ digits_value 10 (take result.1 text.now) }
{
    let mut value = 0;
    let mut count = 0;
    while count < text.len() && value < 100_000_000 && is_digit(text[count]) {
        value = value * 10 + u32::from(text[count] - b'0');
        count += 1;
    }
    (value, count)
}
