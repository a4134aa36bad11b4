// The effects that stand for constants.
ghost use Rattle.std.specs.Prelude.{◌≡◌, ◌<◌, ◌≤◌, ◌^◌, length, map, IfOk};
ghost use Rattle.ql_counter.specs.Built.{constant_place};
ghost use Rattle.ql_counter.specs.Built as built;
ghost use Rattle.ql_counter.specs.Assigned.{constant_places};
ghost use Rattle.ql_counter.specs.Coded.{said};

use crate::classes::{Likeness, class};
use crate::slot::{Part, Slot};
use ql_atoms::Shape;
use ql_base::{EffId, NoMemory};
use ql_formula::Places;
use std::alloc::Global;

/// The effects of the first constants, at most five.
pub(crate) fn places(
    alloc: Global,
    a: &[bool],
    s: Shape,
    slots: &[Slot],
    count: u32,
) -> Result<Places, NoMemory>
    requires places { count ≤ 5 }
    requires few { length slots.now < 2 ^ 31 }
    ensures { IfOk result
        (λ places. map (λ id. id.0) places ≡ constant_places (said a.now s) slots.now count) }
{
    let mut ids = Vec::with_capacity(alloc, count as usize)?;
    for c in 0..count {
        ids.push(EffId(place(a, s, slots, c)))?;
    }
    Ok(Places::of(&ids))
}

/// The effect of a constant: its class's own.
pub(crate) fn place(a: &[bool], s: Shape, slots: &[Slot], c: u32) -> u32
    requires { length slots.now < 2 ^ 31 }
    ensures { result ≡ constant_place (said a.now s) slots.now c }
{
    let leader = class(a, s, Likeness::Equal, c);
    for k in 0..slots.len() {
        if is_own(leader, slots[k]) {
            return k as u32 + 1;
        }
    }
    slots.len() as u32 + 1
}

fn is_own(leader: u32, slot: Slot) -> bool
    ensures { result ≡ built.is_own leader slot }
{
    slot.block == leader && slot.part == Part::Own
}
