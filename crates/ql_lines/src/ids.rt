ghost use Rattle.std.specs.Prelude.{◌≡◌, ◌∷◌, ◌++◌, ◌↔◌, [], List, ℕ, IfOk, IsTrue, MatchOption, decimal, map};
ghost use Rattle.std.specs.List.{AllByRecursion};
ghost use Rattle.ql_base.specs.IdLists.{IsAscending};
ghost use Rattle.ql_lines.specs.Fields.{IsId, fields_of};

use crate::fields::first_field;
use crate::leading::after_number;
use ql_base::{IdSet, NoMemory};
use std::alloc::Global;

/// The ascending ids that the fields of a text spell; `None` if a field isn't an id, or isn't above
/// the one before it.
pub fn ascending_ids(alloc: Global, text: &[u8]) -> Result<Option<IdSet>, NoMemory>
    ensures { IfOk result
        (λ ids. MatchOption ids
        ((seen : List ℕ) → AllByRecursion IsId seen → IsAscending seen
        → fields_of text.now ≡ map decimal seen → ⊥)
        (λ seen. AllByRecursion IsId seen × IsAscending seen
        × (fields_of text.now ≡ map decimal seen))) }
{
    let mut ids = IdSet::new(alloc);
    let mut rest = text;
    while let Some((id, remaining)) = after_number(rest, u32::MAX) {
        if !is_above(ids.items(), id) {
            return Ok(None);
        }
        ids.insert(id)?;
        rest = remaining;
    }
    match first_field(rest) {
        Some(_) => Ok(None),
        None => Ok(Some(ids)),
    }
}

// Whether an id is greater than the last of ascending ids, if there are any.
fn is_above(ids: &[u32], id: u32) -> bool
    requires { IsAscending ids.now }
    ensures { IsTrue result ↔ IsAscending (ids.now ++ id ∷ []) }
{
    match ids.last() {
        Some(last) => *last < id,
        None => true,
    }
}
