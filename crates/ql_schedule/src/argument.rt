ghost use Rattle.std.specs.Prelude.{◌≡◌, IfOk, IsTrue, MatchOption, ◌↔◌, [], Ok, List};
ghost use Rattle.ql_value.specs.declared.scalar.Scalar.{Scalar};
ghost use Rattle.ql_value.specs.declared.value.Value.{Value};
ghost use Rattle.ql_value.specs.Contents.{value_of_scalar};
ghost use Rattle.ql_value.specs.Reading.{value_at};
ghost use Rattle.ql_schedule.specs.declared.argument.Argument.{Argument};
ghost use Rattle.ql_schedule.specs.Arguments.{AreArguments, IsArgument, IsInteger, IsNegative, IsPositive, has_base};
ghost use Rattle.ql_schedule.specs.Parts.{parts_of};

use crate::lists::Arguments;
use crate::parts::{first_part, is_numeral};
use ql_base::{MAX_PARAMETERS, NoMemory};
use ql_lang::Base;
use ql_value::{Value, ValueFault, parse_value};
use std::alloc::Global;

/// An argument of a call, as it is written.
#[derive(Drop)]
pub(crate) enum Argument {
    Given(Value),
    /// An integer that 64 bits can't hold.
    TooGreat,
}

impl Argument {
    /// Whether the argument is of this kind.
    pub(crate) fn has_base(&self, base: Base) -> bool
        ensures { result ≡ has_base base self.now }
    {
        match (base, self) {
            (Base::Int, Argument::TooGreat | Argument::Given(Value::Int(_))) => true,
            (Base::Bool, Argument::Given(Value::Bool(_))) => true,
            (Base::Text, Argument::Given(Value::Text(_))) => true,
            _ => false,
        }
    }
}

/// The arguments that the parts of a text spell, if each spells one.
pub(crate) fn arguments(alloc: Global, text: &[u8]) -> Result<Option<Arguments>, NoMemory>
    ensures { IfOk result
        (λ read. MatchOption read
        ((args : List Argument) → AreArguments (parts_of text.now) args → ⊥)
        (λ args. AreArguments (parts_of text.now) args)) }
{
    let mut arguments = Vec::with_capacity(alloc, MAX_PARAMETERS)?;
    let mut rest = text;
    while let Some((part, remaining)) = first_part(rest) {
        let Some(argument) = read_argument(alloc, part)? else {
            return Ok(None);
        };
        arguments.push(argument)?;
        rest = remaining;
    }
    Ok(Some(Arguments::of(arguments)))
}

// The argument that a part spells.
fn read_argument(alloc: Global, part: &[u8]) -> Result<Option<Argument>, NoMemory>
    ensures { IfOk result
        (λ read. MatchOption read ((a : Argument) → IsArgument part.now a → ⊥)
        (λ a. IsArgument part.now a)) }
{
    match value(alloc, part)? {
        Some(value) => Ok(if is_scalar(&value) {
            Some(Argument::Given(value))
        } else {
            None
        }),
        None => Ok(if is_integer(part) {
            Some(Argument::TooGreat)
        } else {
            None
        }),
    }
}

// The value that the whole part spells.
fn value(alloc: Global, part: &[u8]) -> Result<Option<Value>, NoMemory>
    ensures { IfOk result
        (λ read. MatchOption read ((v : Value) → value_at part.now ≡ Ok (v, []) → ⊥)
        (λ v. value_at part.now ≡ Ok (v, []))) }
{
    match parse_value(alloc, part, 0) {
        Ok((value, to)) => Ok(if to == part.len() { Some(value) } else { None }),
        Err(ValueFault::Unexpected(_)) => Ok(None),
        Err(ValueFault::NoMemory) => Err(NoMemory),
    }
}

// Whether a value may be an argument: a number, a truth value or a text.
fn is_scalar(value: &Value) -> bool
    ensures { IsTrue result ↔ ((s : Scalar) × (value.now ≡ value_of_scalar s)) }
{
    matches!(value, Value::Int(_) | Value::Bool(_) | Value::Text(_))
}

// Whether a part is an integer, however great.
fn is_integer(part: &[u8]) -> bool
    ensures { IsTrue result ↔ IsInteger part.now }
{
    is_numeral(part) || is_negative(part)
}

fn is_negative(part: &[u8]) -> bool
    ensures { IsTrue result ↔ IsNegative part.now }
{
    match part.split_first() {
        Some((b'-', digits)) => is_positive(digits),
        _ => false,
    }
}

// Whether a text is digits without a zero at the start.
fn is_positive(digits: &[u8]) -> bool
    ensures { IsTrue result ↔ IsPositive digits.now }
{
    is_numeral(digits) && digits[0] != b'0'
}
