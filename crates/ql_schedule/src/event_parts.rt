ghost use Rattle.std.specs.Prelude.{◌≡◌, ◌∷◌, [], IfOk, MatchOption, List, ℕ};
ghost use Rattle.std.specs.List.{AllByRecursion};
ghost use Rattle.ql_base.specs.Names.{IsName};
ghost use Rattle.ql_lines.specs.Fields.{Fields};
ghost use Rattle.ql_schedule.specs.declared.event_parts.Caller.{Caller};
ghost use Rattle.ql_schedule.specs.EventLines.{AreNumbers, CallerAt};
ghost use Rattle.ql_schedule.specs.Numbers.{IsNumber};
ghost use Rattle.ql_schedule.specs.Parts.{parts_of};

use crate::lists::{Numbers, Words};
use crate::parts::{after_name, after_number, after_word, first_part, is_end, number};
use ql_base::{NoMemory, Word, is_name};
use std::alloc::Global;

/// A session and the replica that it calls.
#[derive(Clone, Copy)]
pub(crate) struct Caller {
    pub session: u64,
    pub replica: u64,
}

#[tactic(auto, using(crate::proofs::Fronts::no_caller, crate::proofs::Fronts::no_replica))]
/// A caller, and what follows it.
pub(crate) fn after_caller(text: &[u8]) -> Option<(Caller, &[u8])>
    ensures { MatchOption result
        ((c : Caller) (rest : Fields) → CallerAt c (parts_of text.now) rest → ⊥)
        (λ x. CallerAt x.0 (parts_of text.now) (parts_of x.1.now)) }
{
    let Some((session, rest)) = after_number(text) else {
        return None;
    };
    let rest = after_word(rest, b"at")?;
    let Some((replica, remaining)) = after_number(rest) else {
        return None;
    };
    Some((Caller { session, replica }, remaining))
}

#[tactic(auto, using(crate::proofs::Fronts::no_number_alone))]
/// The one number that a text spells.
pub(crate) fn one_number(text: &[u8]) -> Option<u64>
    ensures { MatchOption result
        ((field : List ℕ) (n : ℕ) → IsNumber field n → parts_of text.now ≡ field ∷ [] → ⊥)
        (λ n. (field : List ℕ) × IsNumber field n × (parts_of text.now ≡ field ∷ [])) }
{
    let Some((number, remaining)) = after_number(text) else {
        return None;
    };
    if is_end(remaining) {
        Some(number)
    } else {
        None
    }
}

/// The numbers that the parts of a text spell, if each spells one.
pub(crate) fn numbers(alloc: Global, text: &[u8]) -> Result<Option<Numbers>, NoMemory>
    ensures { IfOk result
        (λ read. MatchOption read ((ns : List ℕ) → AreNumbers (parts_of text.now) ns → ⊥)
        (λ ns. AreNumbers (parts_of text.now) ns)) }
{
    let mut numbers = Vec::new(alloc);
    let mut rest = text;
    while let Some((part, remaining)) = first_part(rest) {
        let Some(number) = number(part) else {
            return Ok(None);
        };
        numbers.push(number)?;
        rest = remaining;
    }
    Ok(Some(Numbers::of(numbers)))
}

/// The names in a text, if each of its parts is one.
pub(crate) fn names(alloc: Global, text: &[u8]) -> Result<Option<Words>, NoMemory>
    ensures { IfOk result (λ read. MatchOption read (AllByRecursion IsName (parts_of text.now) → ⊥)
        (λ words. AllByRecursion IsName (parts_of text.now) × (words ≡ parts_of text.now))) }
{
    let mut words = Vec::new(alloc);
    let mut rest = text;
    while let Some((part, remaining)) = first_part(rest) {
        if !is_name(part) {
            return Ok(None);
        }
        words.push(Word::of(part))?;
        rest = remaining;
    }
    Ok(Some(Words::of(words)))
}
