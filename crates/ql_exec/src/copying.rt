ghost use Rattle.std.specs.Prelude.{◌≡◌, IfOk};

use crate::effect::{Effect, Payload};
use ql_base::NoMemory;
use ql_value::{Values, copy};
use std::alloc::Global;

/// An equal effect.
pub(crate) fn copy_effect(alloc: Global, effect: &Effect) -> Result<Effect, NoMemory>
    ensures { IfOk result (λ copied. copied ≡ effect.now) }
{
    Ok(Effect {
        object: effect.object,
        op: effect.op,
        args: copy_values(alloc, &effect.args)?,
        payload: copy_payload(alloc, &effect.payload)?,
        answer: copy(alloc, &effect.answer)?,
        session: effect.session,
        member: effect.member,
        stamp: effect.stamp,
        seen: effect.seen.copy()?,
    })
}

/// An equal payload.
pub fn copy_payload(alloc: Global, payload: &Payload) -> Result<Payload, NoMemory>
    ensures { IfOk result (λ copied. copied ≡ payload.now) }
{
    match payload {
        Payload::Nothing => Ok(Payload::Nothing),
        Payload::Emitted(values) => Ok(Payload::Emitted(copy_values(alloc, values)?)),
    }
}

/// Equal values.
pub fn copy_values(alloc: Global, values: &Values) -> Result<Values, NoMemory>
    ensures { IfOk result (λ copied. copied ≡ values.now) }
{
    let mut copied = Vec::with_capacity(alloc, values.items().len())?;
    for value in values.items() {
        copied.push(copy(alloc, value)?)?;
    }
    Ok(Values::of(copied))
}
