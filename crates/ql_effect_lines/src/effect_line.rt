ghost use Rattle.std.specs.Prelude.{◌≡◌, ◌∷◌, [], List, ℕ, IfOk, MatchOption, codes, decimal};
ghost use Rattle.ql_base.specs.Names.{IsName};
ghost use Rattle.ql_lines.specs.Fields.{fields_of, Fields};
ghost use Rattle.ql_value.specs.declared.value.Value.{Value};
ghost use Rattle.ql_exec.specs.declared.effect.Payload.{Payload};
ghost use Rattle.ql_effect_lines.specs.Parts.{FieldsAt};
ghost use Rattle.ql_effect_lines.specs.EffectLine.{CallAt, EmitAt, IsEffectLine, PayloadAt};

use crate::part::{value_field, values_field};
use crate::setting::{Setting, read_setting};
use ql_base::{NoMemory, Word};
use ql_exec::Payload;
use ql_lines::{after_name, after_number, after_word};
use ql_value::{Value, Values};
use std::alloc::Global;

/// What the line of an effect says, apart from its number.
#[derive(Drop)]
pub struct EffectLine {
    pub object: Word,
    pub op: Word,
    pub args: Values,
    pub answer: Value,
    pub payload: Payload,
    pub setting: Setting,
}

/// The effect that a line says, whose number has to be `id`; `None` if the line isn't one of such an effect.
pub fn read_line(alloc: Global, text: &[u8], id: u32) -> Result<Option<EffectLine>, NoMemory>
    ensures { IfOk result
        (λ read. MatchOption read ((e : EffectLine) → IsEffectLine text.now id e → ⊥)
        (λ e. IsEffectLine text.now id e)) }
{
    let Some((object, op, rest)) = names(text, id) else {
        return Ok(None);
    };
    let Some((args, answer, rest)) = call(alloc, rest)? else {
        return Ok(None);
    };
    let Some((payload, rest)) = emit(alloc, rest)? else {
        return Ok(None);
    };
    let Some(setting) = read_setting(alloc, rest)? else {
        return Ok(None);
    };
    Ok(Some(EffectLine {
        object: Word::of(object),
        op: Word::of(op),
        args,
        answer,
        payload,
        setting,
    }))
}

// The names of the object and the operation after the word `effect` and this id.
fn names(text: &[u8], id: u32) -> Option<(&[u8], &[u8], &[u8])>
    ensures { MatchOption result
        ((a b : List ℕ) (rest : Fields) → IsName a → IsName b
        → fields_of text.now ≡ codes "effect" ∷ decimal id ∷ a ∷ b ∷ rest → ⊥)
        (λ x. IsName x.0.now × IsName x.1.now
        × FieldsAt (codes "effect" ∷ decimal id ∷ x.0.now ∷ x.1.now ∷ []) text.now x.2.now) }
{
    let rest = after_id(text, id)?;
    let (object, rest) = after_name(rest)?;
    let (op, remaining) = after_name(rest)?;
    Some((object, op, remaining))
}

// What follows the word `effect` and this id.
fn after_id(text: &[u8], id: u32) -> Option<&[u8]>
    ensures { MatchOption result
        ((rest : Fields) → fields_of text.now ≡ codes "effect" ∷ decimal id ∷ rest → ⊥)
        (λ remaining. FieldsAt (codes "effect" ∷ decimal id ∷ []) text.now remaining.now) }
{
    let numbered = after_word(text, b"effect")?;
    let (number, remaining) = after_number(numbered, u32::MAX)?;
    if number == id { Some(remaining) } else { None }
}

// The arguments and the answer of a call.
fn call(alloc: Global, text: &[u8]) -> Result<Option<(Values, Value, &[u8])>, NoMemory>
    ensures { IfOk result
        (λ read. MatchOption read
        ((args : List Value) (answer : Value) (rest : List ℕ) → CallAt args answer text.now rest
        → ⊥)
        (λ x. CallAt x.0 x.1 text.now x.2.now)) }
{
    let Some((args, rest)) = values_field(alloc, text)? else {
        return Ok(None);
    };
    let Some(after_mark) = after_word(rest, b"=") else {
        return Ok(None);
    };
    match value_field(alloc, after_mark)? {
        Some((answer, remaining)) => Ok(Some((args, answer, remaining))),
        None => Ok(None),
    }
}

// The payload after the word `emit`.
fn emit(alloc: Global, text: &[u8]) -> Result<Option<(Payload, &[u8])>, NoMemory>
    ensures { IfOk result
        (λ read. MatchOption read
        ((payload : Payload) (rest : List ℕ) → EmitAt payload text.now rest → ⊥)
        (λ x. EmitAt x.0 text.now x.1.now)) }
{
    match after_word(text, b"emit") {
        Some(after_emit) => payload(alloc, after_emit),
        None => Ok(None),
    }
}

// A payload, which is `-` if there is none.
fn payload(alloc: Global, text: &[u8]) -> Result<Option<(Payload, &[u8])>, NoMemory>
    ensures { IfOk result
        (λ read. MatchOption read
        ((payload : Payload) (rest : List ℕ) → PayloadAt payload text.now rest → ⊥)
        (λ x. PayloadAt x.0 text.now x.1.now)) }
{
    if let Some(remaining) = after_word(text, b"-") {
        return Ok(Some((Payload::Nothing, remaining)));
    }
    match values_field(alloc, text)? {
        Some((values, remaining)) => Ok(Some((Payload::Emitted(values), remaining))),
        None => Ok(None),
    }
}
