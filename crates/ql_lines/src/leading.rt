ghost use Rattle.std.specs.Prelude.{◌≡◌, ◌≤◌, ◌∷◌, ◌<◌, List, ℕ, MatchOption, decimal};
ghost use Rattle.ql_base.specs.Names.{IsName};
ghost use Rattle.ql_lines.specs.Fields.{Fields, FirstField, fields_of};

use crate::fields::first_field;
use ql_base::{is_name, number_of};

/// What follows the first field, if this field is `word`; otherwise `None`, also if there is no field.
pub fn after_word<'a>(text: &'a [u8], word: &[u8]) -> Option<&'a [u8]>
    ensures { MatchOption result ((rest : Fields) → fields_of text.now ≡ word.now ∷ rest → ⊥)
        (λ remaining. FirstField text.now word.now remaining.now) }
{
    let (first, remaining) = first_field(text)?;
    if first == word { Some(remaining) } else { None }
}

/// The first field, if it is a name, and what follows it.
pub fn after_name(text: &[u8]) -> Option<(&[u8], &[u8])>
    ensures { MatchOption result
        ((name : List ℕ) (rest : Fields) → IsName name → fields_of text.now ≡ name ∷ rest → ⊥)
        (λ x. IsName x.0.now × FirstField text.now x.0.now x.1.now) }
{
    let (first, remaining) = first_field(text)?;
    if is_name(first) {
        Some((first, remaining))
    } else {
        None
    }
}

/// The number that the first field spells, if it is at most `most`, and what follows the field.
pub fn after_number(text: &[u8], most: u32) -> Option<(u32, &[u8])>
    ensures { MatchOption result
        ((n : ℕ) (rest : Fields) → n ≤ most → fields_of text.now ≡ decimal n ∷ rest → ⊥)
        (λ x. (x.0 ≤ most) × FirstField text.now (decimal x.0) x.1.now) }
{
    let (first, remaining) = first_field(text)?;
    let number = number_of(first, u64::from(most))?;
    Some((number as u32, remaining))
}
