ghost use Rattle.std.specs.Prelude.{◌≡◌};
ghost use Rattle.std.specs.Option.{option_copied};
ghost use Rattle.ql_eval.specs.Evaluation.{combined, denied, negative_of, on_numbers, on_truths, on_values, truth_in};

use ql_lang::BinOp;
use ql_value::{Value, order, sat_add, sat_mul, sat_neg, sat_sub};

/// The value of a binary operator with its operands.
pub(crate) fn combine(op: BinOp, left: Option<&Value>, right: Option<&Value>) -> Option<Value>
    ensures { result ≡ combined op (option_copied left.entry) (option_copied right.entry) }
{
    match (left, right) {
        (Some(left), Some(right)) => on_values(op, left, right),
        _ => None,
    }
}

/// The same of values that are dropped.
pub(crate) fn combine_values(op: BinOp, left: Option<Value>, right: Option<Value>) -> Option<Value>
    ensures { result ≡ combined op left right }
{
    combine(op, left.as_ref(), right.as_ref())
}

fn on_values(op: BinOp, left: &Value, right: &Value) -> Option<Value>
    ensures { result ≡ on_values op left.now right.now }
{
    match op {
        BinOp::Eq => Some(Value::Bool(order(left, right).is_eq())),
        BinOp::Ne => Some(Value::Bool(order(left, right).is_ne())),
        op => match (left, right) {
            (Value::Int(left), Value::Int(right)) => on_numbers(op, *left, *right),
            (Value::Bool(left), Value::Bool(right)) => on_truths(op, *left, *right),
            _ => None,
        },
    }
}

fn on_numbers(op: BinOp, left: i64, right: i64) -> Option<Value>
    ensures { result ≡ on_numbers op left right }
{
    match op {
        BinOp::Lt => Some(Value::Bool(left < right)),
        BinOp::Le => Some(Value::Bool(left <= right)),
        BinOp::Gt => Some(Value::Bool(left > right)),
        BinOp::Ge => Some(Value::Bool(left >= right)),
        BinOp::Add => Some(Value::Int(sat_add(left, right))),
        BinOp::Sub => Some(Value::Int(sat_sub(left, right))),
        BinOp::Mul => Some(Value::Int(sat_mul(left, right))),
        BinOp::Or | BinOp::And | BinOp::Eq | BinOp::Ne => None,
    }
}

fn on_truths(op: BinOp, left: bool, right: bool) -> Option<Value>
    ensures { result ≡ on_truths op left right }
{
    match op {
        BinOp::Or => Some(Value::Bool(left || right)),
        BinOp::And => Some(Value::Bool(left && right)),
        _ => None,
    }
}

/// A value as a truth value, if it is one.
pub(crate) fn truth_of(value: Option<Value>) -> Option<bool>
    ensures { result ≡ truth_in value }
{
    match value {
        Some(Value::Bool(b)) => Some(b),
        _ => None,
    }
}

/// The negation of a truth value.
pub(crate) fn deny(operand: Option<Value>) -> Option<Value>
    ensures { result ≡ denied operand }
{
    match operand {
        Some(Value::Bool(b)) => Some(Value::Bool(!b)),
        _ => None,
    }
}

/// The number with the opposite sign.
pub(crate) fn negate(operand: Option<Value>) -> Option<Value>
    ensures { result ≡ negative_of operand }
{
    match operand {
        Some(Value::Int(n)) => Some(Value::Int(sat_neg(n))),
        _ => None,
    }
}
