// What a line's names and values are in a program.
ghost use Rattle.std.specs.Prelude.{◌≡◌, ◌<◌, IfOk, IfSome, length, map};
ghost use Rattle.std.specs.Option.{option_map};
ghost use Rattle.serde_json.specs.View.{view};
ghost use Rattle.ql_typing.specs.Operations.{all_ops};
ghost use Rattle.ql_value.specs.Contents.{value_of_scalar};
ghost use Rattle.ql_trace.specs.FormTexts.{given_texts, heading_text, part_text, value_texts};
ghost use Rattle.ql_trace.specs.Forms.{if_there};
ghost use Rattle.ql_trace.specs.Kinds.{as_value};
ghost use Rattle.ql_trace.specs.Meaning.{
  args_as,
  binds_as,
  called_in,
  decl_in,
  known_in,
  payload_as,
  payload_in,
};

use crate::form::{Given, Heading, Part, Values as ValueForms};
use crate::kinds::{scalar_of, value_of};
use ql_base::{DeclId, NoMemory, OpId};
use ql_exec::Payload;
use ql_lang::{Bind, EmitDecl, OpDecl, Param};
use ql_typing::Typed;
use ql_value::{Scalar, Value, Values};
use serde_json::Value as Json;
use std::alloc::Global;

/// The operation of a line, and the declared name of its transaction, if it has one.
#[derive(Clone, Copy)]
pub struct Known {
    pub op: OpId,
    pub decl: Option<DeclId>,
}

/// What the program has of these names; `None` if it lacks one.
pub fn known_of(t: &Typed, heading: &Heading<'_>) -> Option<Known>
    ensures known { result ≡ known_in t.now.program (heading_text heading.now) }
    ensures within { IfSome result
        (λ known. known.op.0 < length (all_ops t.now.program.types)) }
{
    let op = t.op_named(heading.op.as_bytes())?;
    let decl = decl_of(t, heading.txn)?;
    Some(Known { op, decl })
}

fn decl_of(t: &Typed, txn: Option<Part<'_>>) -> Option<Option<DeclId>>
    ensures { result ≡ decl_in t.now.program (option_map part_text txn.entry) }
{
    match txn {
        None => Some(None),
        Some(part) => {
            let decl = t.txn_named(part.name.as_bytes())?;
            Some(Some(decl))
        }
    }
}

/// The values of a call.
#[derive(Drop)]
pub struct Called {
    pub args: Values,
    /// What it answered, if that is known.
    pub answer: Option<Value>,
    /// What it changed, if that is given.
    pub payload: Option<Payload>,
}

/// The values of a call of an operation, if they are of its numbers and kinds.
pub fn called_of(
    alloc: Global,
    op: &OpDecl,
    forms: &ValueForms<'_>,
) -> Result<Option<Called>, NoMemory>
    ensures { IfOk result (λ called. called ≡ called_in op.now (value_texts forms.now)) }
{
    let Some(args) = args(alloc, op.params.items(), forms.args)? else {
        return Ok(None);
    };
    let Some(answer) = answer(alloc, op, forms.answer)? else {
        return Ok(None);
    };
    match payload(alloc, &op.effect, forms.payload)? {
        Some(payload) => Ok(Some(Called {
            args,
            answer,
            payload,
        })),
        None => Ok(None),
    }
}

fn args(alloc: Global, params: &[Param], items: &[Json]) -> Result<Option<Values>, NoMemory>
    ensures { IfOk result (λ args. args ≡ args_as params.now (map view items.now)) }
{
    if params.len() != items.len() {
        return Ok(None);
    }
    let mut values = Vec::with_capacity(alloc, items.len())?;
    for k in 0..items.len() {
        match scalar_of(alloc, params[k].base, &items[k])? {
            Some(scalar) => values.push(value_from(scalar))?,
            None => return Ok(None),
        }
    }
    Ok(Some(Values::of(values)))
}

fn value_from(scalar: Scalar) -> Value
    ensures { result ≡ value_of_scalar scalar }
{
    match scalar {
        Scalar::Int(number) => Value::Int(number),
        Scalar::Bool(truth) => Value::Bool(truth),
        Scalar::Text(text) => Value::Text(text),
    }
}

fn answer(
    alloc: Global,
    op: &OpDecl,
    form: Option<&Json>,
) -> Result<Option<Option<Value>>, NoMemory>
    ensures { IfOk result
        (λ answer. answer ≡ if_there (as_value op.now.kind) (option_map (λ d. view d.now) form.entry)) }
{
    match form {
        None => Ok(Some(None)),
        Some(json) => match value_of(alloc, op.kind, json)? {
            Some(value) => Ok(Some(Some(value))),
            None => Ok(None),
        },
    }
}

fn payload(
    alloc: Global,
    effect: &Option<EmitDecl>,
    form: Option<Given<'_>>,
) -> Result<Option<Option<Payload>>, NoMemory>
    ensures { IfOk result
        (λ payload. payload ≡ payload_in effect.now (option_map given_texts form.entry)) }
{
    match form {
        None => Ok(Some(None)),
        Some(given) => match given_payload(alloc, effect, given)? {
            Some(payload) => Ok(Some(Some(payload))),
            None => Ok(None),
        },
    }
}

fn given_payload(
    alloc: Global,
    effect: &Option<EmitDecl>,
    given: Given<'_>,
) -> Result<Option<Payload>, NoMemory>
    ensures { IfOk result (λ payload. payload ≡ payload_as effect.now (given_texts given.entry)) }
{
    match (given, effect) {
        (Given::Nothing, _) => Ok(Some(Payload::Nothing)),
        (Given::Values(items), Some(emit)) => emitted(alloc, emit.binds.items(), items),
        (Given::Values(_), None) => Ok(None),
    }
}

fn emitted(alloc: Global, binds: &[Bind], items: &[Json]) -> Result<Option<Payload>, NoMemory>
    ensures { IfOk result
        (λ payload. payload ≡ option_map (λ vs. Payload.Emitted vs) (binds_as binds.now (map view items.now))) }
{
    match bound(alloc, binds, items)? {
        Some(values) => Ok(Some(Payload::Emitted(values))),
        None => Ok(None),
    }
}

fn bound(alloc: Global, binds: &[Bind], items: &[Json]) -> Result<Option<Values>, NoMemory>
    ensures { IfOk result (λ values. values ≡ binds_as binds.now (map view items.now)) }
{
    if binds.len() != items.len() {
        return Ok(None);
    }
    let mut values = Vec::with_capacity(alloc, items.len())?;
    for k in 0..items.len() {
        match scalar_of(alloc, binds[k].base, &items[k])? {
            Some(scalar) => values.push(value_from(scalar))?,
            None => return Ok(None),
        }
    }
    Ok(Some(Values::of(values)))
}
