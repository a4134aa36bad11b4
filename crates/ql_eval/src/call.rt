ghost use Rattle.std.specs.Prelude.{◌≡◌, IfOk};
ghost use Rattle.ql_eval.specs.Evaluation.{
  called_with_one,
  called_with_three,
  called_with_two,
  with_scalar,
  with_scalars,
};

use crate::scalar::{into_scalar, single};
use ql_base::NoMemory;
use ql_typing::Function;
use ql_value::{Scalar, Value, add, drop_key, get, has, put, remove, size, sum, union};
use std::alloc::Global;

/// The value of a function of one argument.
pub(crate) fn with_one(function: Option<Function>, first: &Value) -> Option<Value>
    ensures { result ≡ called_with_one function first.now }
{
    match (function, first) {
        (Some(Function::Size), Value::Set(_) | Value::Map(_)) => Some(Value::Int(size(first))),
        (Some(Function::Sum), Value::Map(map)) => Some(Value::Int(sum(map))),
        _ => None,
    }
}

/// The value of a function of two arguments.
pub(crate) fn with_two(
    alloc: Global,
    function: Option<Function>,
    first: &Value,
    second: Option<Value>,
) -> Result<Option<Value>, NoMemory>
    ensures { IfOk result (λ value. value ≡ called_with_two function first.now second) }
{
    let (Some(function), Some(second)) = (function, second) else {
        return Ok(None);
    };
    if let (Function::Union, Value::Set(set), Value::Set(other)) = (function, first, &second) {
        return Ok(Some(Value::Set(union(alloc, set, other)?)));
    }
    match into_scalar(second) {
        Some(second) => with_scalar(alloc, function, first, &second),
        None => Ok(None),
    }
}

fn with_scalar(
    alloc: Global,
    function: Function,
    first: &Value,
    second: &Scalar,
) -> Result<Option<Value>, NoMemory>
    ensures { IfOk result (λ value. value ≡ with_scalar function first.now second.now) }
{
    let value = match (function, first) {
        (Function::Has, Value::Set(_) | Value::Map(_)) => Value::Bool(has(first, second)),
        (Function::Add, Value::Set(set)) => Value::Set(add(alloc, set, second)?),
        (Function::Remove, Value::Set(set)) => Value::Set(remove(alloc, set, second)?),
        (Function::Drop, Value::Map(map)) => Value::Map(drop_key(alloc, map, second)?),
        _ => return Ok(None),
    };
    Ok(Some(value))
}

/// The value of a function of three arguments.
pub(crate) fn with_three(
    alloc: Global,
    function: Option<Function>,
    first: &Value,
    second: Option<Value>,
    third: Option<Value>,
) -> Result<Option<Value>, NoMemory>
    ensures { IfOk result (λ value. value ≡ called_with_three function first.now second third) }
{
    match (function, second, third) {
        (Some(function), Some(second), Some(third)) => {
            with_scalars(
                alloc,
                function,
                first,
                into_scalar(second),
                into_scalar(third),
            )
        }
        _ => Ok(None),
    }
}

fn with_scalars(
    alloc: Global,
    function: Function,
    first: &Value,
    second: Option<Scalar>,
    third: Option<Scalar>,
) -> Result<Option<Value>, NoMemory>
    ensures { IfOk result (λ value. value ≡ with_scalars function first.now second third) }
{
    let (Value::Map(map), Some(key), Some(value)) = (first, second, third) else {
        return Ok(None);
    };
    match function {
        Function::Put => Ok(Some(Value::Map(put(alloc, map, &key, &value)?))),
        Function::Get => Ok(Some(single(get(alloc, map, &key, &value)?))),
        _ => Ok(None),
    }
}
