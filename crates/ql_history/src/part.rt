ghost use Rattle.std.specs.Prelude.{◌≤◌, length};

use ql_lines::{after_spaces, first_field};

/// The first part of a line, and the rest after it. A part ends at a space that is neither between quotes nor
/// in brackets, so a value is one part.
pub(crate) fn first_part(text: &[u8]) -> Option<(&[u8], &[u8])> {
    let start = after_spaces(text);
    if start.is_empty() {
        return None;
    }
    Some(start.split_at(part_bytes(start)))
}

/// Whether a line consists of this word.
pub(crate) fn is_word(text: &[u8], word: &[u8]) -> bool {
    match first_field(text) {
        Some((field, after)) => field == word && first_field(after).is_none(),
        None => false,
    }
}

// The length in bytes of the first part.
fn part_bytes(text: &[u8]) -> usize
    ensures { result ≤ length text.now }
{
    let mut inside = Inside::Nothing;
    for (i, b) in text.iter().enumerate() {
        inside = match (inside, *b) {
            (Inside::Nothing, b' ') => return i,
            (inside, b) => inside.with(b),
        };
    }
    text.len()
}

// What encloses a byte: quotes, brackets to a depth, or neither.
#[derive(Clone, Copy)]
enum Inside {
    Nothing,
    Brackets(u32),
    Quotes(u32),
}

impl Inside {
    fn with(self, b: u8) -> Inside {
        match (self, b) {
            (Inside::Nothing, b'"') => Inside::Quotes(0),
            (Inside::Brackets(depth), b'"') => Inside::Quotes(depth),
            (Inside::Quotes(depth), b'"') => Inside::at_depth(depth),
            (Inside::Nothing, b'(' | b'{') => Inside::Brackets(1),
            (Inside::Brackets(depth), b'(' | b'{') => Inside::Brackets(depth.saturating_add(1)),
            (Inside::Brackets(depth), b')' | b'}') => Inside::at_depth(depth.saturating_sub(1)),
            (same, _) => same,
        }
    }

    fn at_depth(depth: u32) -> Inside {
        if depth == 0 {
            Inside::Nothing
        } else {
            Inside::Brackets(depth)
        }
    }
}
