ghost use Rattle.std.specs.Prelude.{◌≡◌};
ghost use Rattle.std.specs.Ordering.{is_eq};
ghost use Rattle.std.specs.Cmp.Lexicographic.{slice_cmp};
ghost use Rattle.ql_value.specs.Order.{entry_cmp, scalar_cmp};
ghost use Rattle.ql_value.specs.ValueOrder.{kind_rank, value_cmp};

use crate::scalar::Scalar;
use crate::value::Value;
use std::cmp::Ordering;

/// The order of values: unit, numbers, truth values with false first, texts by their bytes, sets,
/// maps. Two sets or two maps are compared entry by entry, a map's by key and then by value.
pub fn order(a: &Value, b: &Value) -> Ordering
    ensures { result ≡ value_cmp a.now b.now }
{
    match (a, b) {
        (Value::Int(a), Value::Int(b)) => a.cmp(b),
        (Value::Bool(a), Value::Bool(b)) => a.cmp(b),
        (Value::Text(a), Value::Text(b)) => a.items().cmp(b.items()),
        (Value::Set(a), Value::Set(b)) => elements_order(a.items(), b.items()),
        (Value::Map(a), Value::Map(b)) => entries_order(a.items(), b.items()),
        _ => kind_rank(a).cmp(&kind_rank(b)),
    }
}

/// The order of scalars: numbers, then truth values with false first, then texts by their bytes.
pub fn scalar_order(a: &Scalar, b: &Scalar) -> Ordering
    ensures { result ≡ scalar_cmp a.now b.now }
{
    match (a, b) {
        (Scalar::Int(a), Scalar::Int(b)) => a.cmp(b),
        (Scalar::Bool(a), Scalar::Bool(b)) => a.cmp(b),
        (Scalar::Text(a), Scalar::Text(b)) => a.items().cmp(b.items()),
        (Scalar::Int(_), _) | (Scalar::Bool(_), Scalar::Text(_)) => Ordering::Less,
        _ => Ordering::Greater,
    }
}

/// Whether two scalars are the same.
pub fn same_scalar(a: &Scalar, b: &Scalar) -> bool
    ensures { result ≡ is_eq (scalar_cmp a.now b.now) }
{
    scalar_order(a, b).is_eq()
}

// The rank of a kind of value in the order.
fn kind_rank(value: &Value) -> u8
    ensures { result ≡ kind_rank value.now }
{
    match value {
        Value::Unit => 0,
        Value::Int(_) => 1,
        Value::Bool(_) => 2,
        Value::Text(_) => 3,
        Value::Set(_) => 4,
        Value::Map(_) => 5,
    }
}

// The order of two sets' elements, one by one.
fn elements_order(a: &[Scalar], b: &[Scalar]) -> Ordering
    ensures { result ≡ slice_cmp scalar_cmp a.now b.now }
{
    for k in 0..a.len().min(b.len()) {
        let first = scalar_order(&a[k], &b[k]);
        if first.is_ne() {
            return first;
        }
    }
    a.len().cmp(&b.len())
}

// The order of two maps' entries, one by one: by key, then by value.
fn entries_order(a: &[(Scalar, Scalar)], b: &[(Scalar, Scalar)]) -> Ordering
    ensures { result ≡ slice_cmp entry_cmp a.now b.now }
{
    for k in 0..a.len().min(b.len()) {
        let first = entry_order(&a[k], &b[k]);
        if first.is_ne() {
            return first;
        }
    }
    a.len().cmp(&b.len())
}

fn entry_order(a: &(Scalar, Scalar), b: &(Scalar, Scalar)) -> Ordering
    ensures { result ≡ entry_cmp a.now b.now }
{
    scalar_order(&a.0, &b.0).then(scalar_order(&a.1, &b.1))
}
