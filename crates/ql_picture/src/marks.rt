use ql_base::{MAX_VARIABLES, NoMemory, number_of, push_bytes};
use ql_lines::first_field;
use std::alloc::Global;

// The most names in the description of a breach: a contract's variables and the current effect.
const MAX_MARKS: usize = MAX_VARIABLES + 1;

/// An effect, counted from 1, with the variables that denote it, as `a` or `a cur`.
#[derive(Drop)]
pub struct Marked {
    pub effect: u32,
    pub names: Vec<u8>,
}

/// The effects that the description of a breach names: `a=3` is effect 3 as `a`, and `at 2` effect 2 as `cur`. All
/// other words are skipped, and so are names after the sixth: a contract has five variables and the current effect.
pub fn marks_of(alloc: Global, words: &[u8]) -> Result<Vec<Marked>, NoMemory> {
    let mut marks = Vec::new(alloc);
    let mut rest = words;
    let mut is_after_at = false;
    let mut left = MAX_MARKS;
    for _ in 0..words.len() {
        let Some((field, after)) = first_field(rest) else {
            return Ok(marks);
        };
        if let Some((name, effect)) = named(field, is_after_at) {
            if left == 0 {
                return Ok(marks);
            }
            put_mark(alloc, &mut marks, name, effect)?;
            left -= 1;
        }
        is_after_at = field == b"at".as_slice();
        rest = after;
    }
    Ok(marks)
}

// The name and the effect that a word denotes.
fn named(field: &[u8], is_after_at: bool) -> Option<(&[u8], u32)> {
    if is_after_at {
        return Some((b"cur", effect_number(field)?));
    }
    let at = field.iter().position(|b| *b == b'=')?;
    let effect = effect_number(&field[at + 1..])?;
    Some((&field[..at], effect))
}

fn effect_number(field: &[u8]) -> Option<u32> {
    let number = number_of(field, u64::from(u32::MAX))?;
    Some(number as u32)
}

// Adds a name of an effect.
fn put_mark(
    alloc: Global,
    marks: &mut Vec<Marked>,
    name: &[u8],
    effect: u32,
) -> Result<(), NoMemory> {
    for mark in marks.iter_mut() {
        if mark.effect == effect {
            push_bytes(&mut mark.names, b" ")?;
            return push_bytes(&mut mark.names, name);
        }
    }
    let names = Vec::from_slice(alloc, name)?;
    marks.push(Marked { effect, names })?;
    Ok(())
}
