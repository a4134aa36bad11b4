ghost use Rattle.std.specs.Prelude.{◌≡◌, ◌≤◌, ◌↔◌, ◌∷◌, ◌<◌, List, ℕ, IfOk, IsTrue, MatchOption, codes, decimal};
ghost use Rattle.ql_base.specs.Names.{IsName};
ghost use Rattle.ql_lines.specs.Fields.{fields_of, Fields, IsId};
ghost use Rattle.ql_holds_files.specs.EffectLine.{IsHoldsEffectLine, at_fields, holds_end_fields};

use crate::ids::seen_ids;
use ql_base::{IdSet, NoMemory, Word};
use ql_lines::{after_name, after_number, after_word, first_field};
use std::alloc::Global;

/// The line of an effect, without its number.
#[derive(Drop)]
pub struct EffectLine {
    pub object: Word,
    pub op: Word,
    pub session: u32,
    pub seen: IdSet,
}

/// The effect of a line that has the expected number `id`; `None` for any other line.
pub(crate) fn effect_line(
    alloc: Global,
    text: &[u8],
    id: u32,
) -> Result<Option<EffectLine>, NoMemory>
    ensures { IfOk result
        (λ line. MatchOption line
        ((e : EffectLine) → IsHoldsEffectLine (fields_of text.now) id e → ⊥)
        (λ e. IsHoldsEffectLine (fields_of text.now) id e)) }
{
    let Some(rest) = after_id(text, id) else {
        return Ok(None);
    };
    let Some((object, op, rest)) = two_names(rest) else {
        return Ok(None);
    };
    let Some((session, rest)) = session(rest) else {
        return Ok(None);
    };
    match seen_ids(alloc, rest)? {
        Some(seen) => Ok(Some(EffectLine {
            object: Word::of(object),
            op: Word::of(op),
            session,
            seen,
        })),
        None => Ok(None),
    }
}

// The rest of a line after the word `effect` and this id.
fn after_id(text: &[u8], id: u32) -> Option<&[u8]>
    ensures { MatchOption result
        ((rest : Fields) → fields_of text.now ≡ codes "effect" ∷ decimal id ∷ rest → ⊥)
        (λ remaining. fields_of text.now ≡ codes "effect" ∷ decimal id ∷ fields_of remaining.now) }
{
    let numbered = after_word(text, b"effect")?;
    let (number, remaining) = after_number(numbered, u32::MAX)?;
    if number == id { Some(remaining) } else { None }
}

// Two names, and the rest of the line after them.
fn two_names(text: &[u8]) -> Option<(&[u8], &[u8], &[u8])>
    ensures { MatchOption result
        ((a b : List ℕ) (rest : Fields) → IsName a → IsName b → fields_of text.now ≡ a ∷ b ∷ rest
        → ⊥)
        (λ x. IsName x.0.now × IsName x.1.now
        × (fields_of text.now ≡ x.0.now ∷ x.1.now ∷ fields_of x.2.now)) }
{
    let (first, rest) = after_name(text)?;
    let (second, remaining) = after_name(rest)?;
    Some((first, second, remaining))
}

// The session between the words `session` and `vis`, and the rest of the line after these.
fn session(text: &[u8]) -> Option<(u32, &[u8])>
    ensures { MatchOption result
        ((s : ℕ) (rest : Fields) → s ≤ 255
        → fields_of text.now ≡ codes "session" ∷ decimal s ∷ codes "vis" ∷ rest → ⊥)
        (λ x. (x.0 ≤ 255) × (fields_of text.now
        ≡ codes "session" ∷ decimal x.0 ∷ codes "vis" ∷ fields_of x.1.now)) }
{
    let numbered = after_word(text, b"session")?;
    let (session, rest) = after_number(numbered, 255)?;
    let remaining = after_word(rest, b"vis")?;
    Some((session, remaining))
}

/// The id of the current effect in a line `at ID`; `None` for any other line.
pub(crate) fn current(text: &[u8]) -> Option<u32>
    ensures { MatchOption result ((cur : ℕ) → IsId cur → fields_of text.now ≡ at_fields cur → ⊥)
        (λ cur. IsId cur × (fields_of text.now ≡ at_fields cur)) }
{
    let numbered = after_word(text, b"at")?;
    let (cur, remaining) = after_number(numbered, u32::MAX)?;
    match first_field(remaining) {
        Some(_) => None,
        None => Some(cur),
    }
}

/// Whether a line is the word `end`.
pub(crate) fn is_end(text: &[u8]) -> bool
    ensures { IsTrue result ↔ (fields_of text.now ≡ holds_end_fields) }
{
    match after_word(text, b"end") {
        Some(remaining) => first_field(remaining).is_none(),
        None => false,
    }
}
