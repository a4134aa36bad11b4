use crate::effect::Effect;
use crate::messages::Spot;
use crate::run::Run;
use ql_base::{NoMemory, push_bytes, push_number};
use std::alloc::Global;

/// An effect where it is drawn, with the index of its object, whether its operation is strong, and its line in short.
pub struct Seat {
    pub spot: Spot,
    pub object: u32,
    pub is_strong: bool,
    pub title: Vec<u8>,
}

// Written out, so that a crate above proves one call for it.
impl Drop for Seat {
    fn drop(self) {
        let Seat {
            spot: _,
            object: _,
            is_strong: _,
            title: _,
        } = self;
    }
}

/// The seat of the effect with this number at a spot.
pub(crate) fn seat_of(
    alloc: Global,
    run: &Run,
    effect: &Effect,
    number: u32,
    spot: Spot,
) -> Result<Seat, NoMemory> {
    Ok(Seat {
        spot,
        object: effect.object,
        is_strong: run.is_strong(effect),
        title: title(alloc, run, effect, number)?,
    })
}

// The number, the object, the call and the answer of an effect.
fn title(alloc: Global, run: &Run, effect: &Effect, number: u32) -> Result<Vec<u8>, NoMemory> {
    let mut text = Vec::from_slice(alloc, b"effect ")?;
    push_number(&mut text, number)?;
    push_bytes(&mut text, b": ")?;
    push_bytes(&mut text, run.object_name(effect.object))?;
    push_bytes(&mut text, b" ")?;
    push_bytes(&mut text, &effect.call)?;
    push_answer(&mut text, &effect.answer)?;
    Ok(text)
}

// An answer after its sign, if there is one.
fn push_answer(text: &mut Vec<u8>, answer: &[u8]) -> Result<(), NoMemory> {
    if answer.is_empty() {
        return Ok(());
    }
    push_bytes(text, b" = ")?;
    push_bytes(text, answer)
}
