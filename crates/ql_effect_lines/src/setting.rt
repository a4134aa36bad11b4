ghost use Rattle.std.specs.Prelude.{◌≡◌, ◌≤◌, ◌∷◌, ◌<◌, ℕ, IfOk, MatchOption, Option, codes, decimal};
ghost use Rattle.ql_lines.specs.Fields.{fields_of, Fields, IsId};
ghost use Rattle.ql_effect_lines.specs.EffectLine.{FitsTxn, IsSetting, txn_text};

use crate::part::after_byte;
use ql_base::{IdSet, NoMemory, Word, digit_bytes, is_name, number_of};
use ql_lines::{after_number, after_word, ascending_ids, first_field};
use std::alloc::Global;

/// A begun transaction, by its number and its declared name.
#[derive(Clone, Copy)]
pub struct Begun {
    pub run: u32,
    pub name: Word,
}

/// Where an effect was made, and what it sees.
#[derive(Drop)]
pub struct Setting {
    pub session: u32,
    pub txn: Option<Begun>,
    pub stamp: u32,
    pub seen: IdSet,
}

/// What the last fields of an effect's line say.
pub(crate) fn read_setting(alloc: Global, text: &[u8]) -> Result<Option<Setting>, NoMemory>
    ensures { IfOk result
        (λ read. MatchOption read ((s : Setting) → IsSetting text.now s → ⊥)
        (λ s. IsSetting text.now s)) }
{
    let Some((session, rest)) = session(text) else {
        return Ok(None);
    };
    let Some((txn, rest)) = txn(rest) else {
        return Ok(None);
    };
    let Some((stamp, rest)) = stamp(rest) else {
        return Ok(None);
    };
    match ascending_ids(alloc, rest)? {
        Some(seen) => Ok(Some(Setting {
            session,
            txn,
            stamp,
            seen,
        })),
        None => Ok(None),
    }
}

// The session after its word.
fn session(text: &[u8]) -> Option<(u32, &[u8])>
    ensures { MatchOption result
        ((s : ℕ) (rest : Fields) → s ≤ 255 → fields_of text.now ≡ codes "session" ∷ decimal s ∷ rest
        → ⊥)
        (λ x. (x.0 ≤ 255) × (fields_of text.now
        ≡ codes "session" ∷ decimal x.0 ∷ fields_of x.1.now)) }
{
    let numbered = after_word(text, b"session")?;
    let (session, remaining) = after_number(numbered, 255)?;
    Some((session, remaining))
}

// The transaction after the word `txn`.
fn txn(text: &[u8]) -> Option<(Option<Begun>, &[u8])>
    ensures { MatchOption result
        ((t : Option Begun) (rest : Fields) → FitsTxn t
        → fields_of text.now ≡ codes "txn" ∷ txn_text t ∷ rest → ⊥)
        (λ x. FitsTxn x.0 × (fields_of text.now ≡ codes "txn" ∷ txn_text x.0 ∷ fields_of x.1.now)) }
{
    let after_txn = after_word(text, b"txn")?;
    let (field, remaining) = first_field(after_txn)?;
    let txn = txn_of(field)?;
    Some((txn, remaining))
}

// The transaction that a field says.
fn txn_of(field: &[u8]) -> Option<Option<Begun>>
    ensures { MatchOption result ((t : Option Begun) → FitsTxn t → field.now ≡ txn_text t → ⊥)
        (λ t. FitsTxn t × (field.now ≡ txn_text t)) }
{
    if field == b"-".as_slice() {
        return Some(None);
    }
    let begun = begun_of(field)?;
    Some(Some(begun))
}

// The begun transaction that a field says.
fn begun_of(field: &[u8]) -> Option<Begun>
    ensures { MatchOption result
        ((t : Begun) → FitsTxn (Some t) → field.now ≡ txn_text (Some t) → ⊥)
        (λ t. FitsTxn (Some t) × (field.now ≡ txn_text (Some t))) }
{
    let (digits, rest) = field.split_at(digit_bytes(field));
    let Some(name) = after_byte(rest, b':') else {
        return None;
    };
    let Some(run) = run_of(digits) else {
        return None;
    };
    if is_name(name) {
        Some(Begun {
            run,
            name: Word::of(name),
        })
    } else {
        None
    }
}

// The number of a begun transaction, which is at least 1.
fn run_of(digits: &[u8]) -> Option<u32>
    ensures { MatchOption result ((n : ℕ) → 1 ≤ n → IsId n → digits.now ≡ decimal n → ⊥)
        (λ n. (1 ≤ n) × IsId n × (digits.now ≡ decimal n)) }
{
    let run = number_of(digits, u64::from(u32::MAX))?;
    if run == 0 { None } else { Some(run as u32) }
}

// The stamp between the words `stamp` and `vis`.
fn stamp(text: &[u8]) -> Option<(u32, &[u8])>
    ensures { MatchOption result
        ((n : ℕ) (rest : Fields) → IsId n
        → fields_of text.now ≡ codes "stamp" ∷ decimal n ∷ codes "vis" ∷ rest → ⊥)
        (λ x. IsId x.0 × (fields_of text.now
        ≡ codes "stamp" ∷ decimal x.0 ∷ codes "vis" ∷ fields_of x.1.now)) }
{
    let numbered = after_word(text, b"stamp")?;
    let (stamp, rest) = after_number(numbered, u32::MAX)?;
    let remaining = after_word(rest, b"vis")?;
    Some((stamp, remaining))
}
