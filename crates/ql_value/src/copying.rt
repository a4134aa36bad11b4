ghost use Rattle.std.specs.Prelude.{◌≡◌, ◌++◌, IfOk, OnOk};

use crate::scalar::{Scalar, TextVal};
use crate::value::{MapVal, SetVal, Value};
use ql_base::NoMemory;
use std::alloc::Global;

/// An equal value.
pub fn copy(alloc: Global, value: &Value) -> Result<Value, NoMemory>
    ensures { IfOk result (λ copied. copied ≡ value.now) }
{
    match value {
        Value::Unit => Ok(Value::Unit),
        Value::Int(n) => Ok(Value::Int(*n)),
        Value::Bool(b) => Ok(Value::Bool(*b)),
        Value::Text(t) => Ok(Value::Text(copy_text(alloc, t)?)),
        Value::Set(s) => Ok(Value::Set(copy_set(alloc, s)?)),
        Value::Map(m) => Ok(Value::Map(copy_map(alloc, m)?)),
    }
}

/// An equal scalar.
pub fn copy_scalar(alloc: Global, scalar: &Scalar) -> Result<Scalar, NoMemory>
    ensures { IfOk result (λ copied. copied ≡ scalar.now) }
{
    match scalar {
        Scalar::Int(n) => Ok(Scalar::Int(*n)),
        Scalar::Bool(b) => Ok(Scalar::Bool(*b)),
        Scalar::Text(t) => Ok(Scalar::Text(copy_text(alloc, t)?)),
    }
}

/// An equal text.
pub fn copy_text(alloc: Global, text: &TextVal) -> Result<TextVal, NoMemory>
    ensures { IfOk result (λ copied. copied ≡ text.now) }
{
    Ok(TextVal::of(Vec::from_slice(alloc, text.items())?))
}

/// An equal set.
pub fn copy_set(alloc: Global, set: &SetVal) -> Result<SetVal, NoMemory>
    ensures { IfOk result (λ copied. copied ≡ set.now) }
{
    Ok(SetVal::of(copy_elements(alloc, set.items(), 0)?))
}

/// An equal map.
pub fn copy_map(alloc: Global, map: &MapVal) -> Result<MapVal, NoMemory>
    ensures { IfOk result (λ copied. copied ≡ map.now) }
{
    Ok(MapVal::of(copy_entries(alloc, map.items(), 0)?))
}

// Equal elements, with room for `more` others.
pub(crate) fn copy_elements(
    alloc: Global,
    elements: &[Scalar],
    more: usize,
) -> Result<Vec<Scalar>, NoMemory>
    ensures { IfOk result (λ copied. copied.items ≡ elements.now) }
{
    let mut copied = Vec::with_capacity(alloc, elements.len().saturating_add(more))?;
    for element in elements {
        copied.push(copy_scalar(alloc, element)?)?;
    }
    Ok(copied)
}

// Equal entries, with room for `more` others.
pub(crate) fn copy_entries(
    alloc: Global,
    entries: &[(Scalar, Scalar)],
    more: usize,
) -> Result<Vec<(Scalar, Scalar)>, NoMemory>
    ensures { IfOk result (λ copied. copied.items ≡ entries.now) }
{
    let mut copied = Vec::with_capacity(alloc, entries.len().saturating_add(more))?;
    for entry in entries {
        copied.push((copy_scalar(alloc, &entry.0)?, copy_scalar(alloc, &entry.1)?))?;
    }
    Ok(copied)
}
