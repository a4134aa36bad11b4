ghost use Rattle.std.specs.Prelude.{◌≡◌, IfOk};
ghost use Rattle.ql_eval.specs.Evaluation.{scalar_of, single, text_of};

use ql_base::{MAX_TEXT_BYTES, NoMemory, is_text_byte};
use ql_lang::TextLit;
use ql_value::{Scalar, TextVal, Value};
use std::alloc::Global;

/// A single value as a scalar.
pub(crate) fn into_scalar(value: Value) -> Option<Scalar>
    ensures { result ≡ scalar_of value }
{
    match value {
        Value::Int(n) => Some(Scalar::Int(n)),
        Value::Bool(b) => Some(Scalar::Bool(b)),
        Value::Text(t) => Some(Scalar::Text(t)),
        Value::Unit | Value::Set(_) | Value::Map(_) => None,
    }
}

/// A scalar as a value.
pub(crate) fn single(scalar: Scalar) -> Value
    ensures { result ≡ single scalar }
{
    match scalar {
        Scalar::Int(n) => Value::Int(n),
        Scalar::Bool(b) => Value::Bool(b),
        Scalar::Text(t) => Value::Text(t),
    }
}

/// A literal's text, or the empty text for bytes that no literal of a source has.
pub(crate) fn literal(alloc: Global, literal: &TextLit) -> Result<TextVal, NoMemory>
    ensures { IfOk result (λ text. text ≡ text_of literal.now) }
{
    let bytes = literal.items();
    if bytes.len() <= MAX_TEXT_BYTES && bytes.iter().all(|b| is_text_byte(*b)) {
        Ok(TextVal::of(Vec::from_slice(alloc, bytes)?))
    } else {
        Ok(TextVal::of(Vec::new(alloc)))
    }
}
