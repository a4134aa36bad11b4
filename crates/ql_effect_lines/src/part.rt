ghost use Rattle.std.specs.Prelude.{◌≡◌, ◌≤◌, ◌∷◌, List, ℕ, IfOk, MatchOption, Ok, length, false};
ghost use Rattle.ql_base.specs.Bytes.{begins};
ghost use Rattle.ql_value.specs.declared.value.Value.{Value};
ghost use Rattle.ql_value.specs.Reading.{is_byte, value_at};
ghost use Rattle.ql_effect_lines.specs.Parts.{FieldAt, ItemsAt, ValueAt, ValuesAt, ends_field};

use ql_base::NoMemory;
use ql_lines::after_spaces;
use ql_value::{Value, ValueFault, Values, parse_value};
use std::alloc::Global;

/// Values in round brackets as a field, and what follows it.
pub(crate) fn values_field(alloc: Global, text: &[u8]) -> Result<Option<(Values, &[u8])>, NoMemory>
    ensures { IfOk result
        (λ read. MatchOption read
        ((vs : List Value) (rest : List ℕ) → FieldAt ValuesAt vs text.now rest → ⊥)
        (λ x. FieldAt ValuesAt x.0 text.now x.1.now)) }
{
    let Some((values, rest)) = values(alloc, after_spaces(text))? else {
        return Ok(None);
    };
    if ends_field(rest) {
        Ok(Some((values, rest)))
    } else {
        Ok(None)
    }
}

/// A value as a field, and what follows it.
pub(crate) fn value_field(alloc: Global, text: &[u8]) -> Result<Option<(Value, &[u8])>, NoMemory>
    ensures { IfOk result
        (λ read. MatchOption read
        ((v : Value) (rest : List ℕ) → FieldAt ValueAt v text.now rest → ⊥)
        (λ x. FieldAt ValueAt x.0 text.now x.1.now)) }
{
    let Some((value, rest)) = value(alloc, after_spaces(text))? else {
        return Ok(None);
    };
    if ends_field(rest) {
        Ok(Some((value, rest)))
    } else {
        Ok(None)
    }
}

// Values in round brackets.
fn values(alloc: Global, text: &[u8]) -> Result<Option<(Values, &[u8])>, NoMemory>
    ensures { IfOk result
        (λ read. MatchOption read
        ((vs : List Value) (rest : List ℕ) → ValuesAt vs text.now rest → ⊥)
        (λ x. ValuesAt x.0 text.now x.1.now)) }
{
    let Some(inner) = after_byte(text, b'(') else {
        return Ok(None);
    };
    if let Some(rest) = after_byte(inner, b')') {
        return Ok(Some((Values::of(Vec::new(alloc)), rest)));
    }
    items(alloc, inner)
}

// One or more values, and the bracket after them.
fn items(alloc: Global, text: &[u8]) -> Result<Option<(Values, &[u8])>, NoMemory>
    ensures { IfOk result
        (λ read. MatchOption read ((vs : List Value) (rest : List ℕ) → ItemsAt vs text.now rest → ⊥)
        (λ x. ItemsAt x.0 text.now x.1.now)) }
{
    let mut items = Vec::new(alloc);
    let mut rest = text;
    while let Some((item, remaining)) = value(alloc, rest)? {
        items.push(item)?;
        if let Some(end) = after_byte(remaining, b')') {
            return Ok(Some((Values::of(items), end)));
        }
        let Some(next) = after_byte(remaining, b',') else {
            return Ok(None);
        };
        rest = after_spaces(next);
    }
    Ok(None)
}

// The value at the start of a text, whatever follows it.
fn value(alloc: Global, text: &[u8]) -> Result<Option<(Value, &[u8])>, NoMemory>
    ensures read { IfOk result
        (λ read. MatchOption read ((v : Value) (rest : List ℕ) → ValueAt v text.now rest → ⊥)
        (λ x. (value_at text.now ≡ Ok (x.0, x.1.now)) × (length x.1.now ≤ length text.now))) }
{
    match parse_value(alloc, text, 0) {
        Ok((value, to)) => Ok(Some((value, &text[to..]))),
        Err(ValueFault::Unexpected(_)) => Ok(None),
        Err(ValueFault::NoMemory) => Err(NoMemory),
    }
}

/// What follows this byte, if a text begins with it.
pub(crate) fn after_byte(text: &[u8], byte: u8) -> Option<&[u8]>
    ensures { MatchOption result (begins (is_byte byte) text.now ≡ false)
        (λ rest. text.now ≡ byte ∷ rest.now) }
{
    if !text.is_empty() && text[0] == byte {
        Some(&text[1..])
    } else {
        None
    }
}

// Whether a field ends at the start of a text.
fn ends_field(text: &[u8]) -> bool
    ensures { result ≡ ends_field text.now }
{
    text.is_empty() || text[0] == b' '
}
