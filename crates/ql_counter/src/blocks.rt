// The blocks of effects that stand for the constants, in their order.
ghost use Rattle.std.specs.Prelude.{◌≡◌, ◌<◌, ◌≤◌, ◌++◌, length, IfOk, OnOk};
ghost use Rattle.std.specs.List.{All};
ghost use Rattle.ql_base.specs.Ranges.{upto};
ghost use Rattle.ql_exec.specs.Relations.{some_below};
ghost use Rattle.ql_counter.specs.Blocks.{block_slots, has_part, is_link, part_slots, rank, ranked_slots, slots_of};
ghost use Rattle.ql_counter.specs.Coded.{needs, said};

use crate::classes::{Likeness, class};
use crate::constants::related;
use crate::slot::{Extra, Part, Slot};
use ql_atoms::{PairKind, Shape};
use ql_base::NoMemory;
use std::alloc::Global;

/// The effects of all blocks.
pub(crate) fn slots(
    alloc: Global,
    a: &[bool],
    s: Shape,
    extra: Extra,
) -> Result<Vec<Slot>, NoMemory>
    ensures slots { IfOk result (λ slots. slots.items ≡ slots_of (said a.now s) extra) }
    ensures blocks { IfOk result (λ slots. All (λ t. t.block < s.constants) slots.items) }
    ensures few { IfOk result (λ slots. length slots.items ≤ 24) }
{
    let mut slots = Vec::new(alloc);
    for rank in 0..s.constants + 1 {
        push_ranked(a, s, extra, rank, &mut slots)?;
    }
    Ok(slots)
}

// Appends the blocks of the constants that have this many constants before them.
fn push_ranked(
    a: &[bool],
    s: Shape,
    extra: Extra,
    before: u32,
    slots: &mut Vec<Slot>,
) -> Result<(), NoMemory>
    ensures { OnOk result
        (slots.new.items ≡ slots.old.items
        ++ upto s.constants (ranked_slots (said a.now s) extra before)) }
{
    for c in 0..s.constants {
        push_if_ranked(a, s, extra, before, c, slots)?;
    }
    Ok(())
}

// Appends the block of a constant that leads its class and has the rank.
fn push_if_ranked(
    a: &[bool],
    s: Shape,
    extra: Extra,
    before: u32,
    c: u32,
    slots: &mut Vec<Slot>,
) -> Result<(), NoMemory>
    ensures { OnOk result
        (slots.new.items ≡ slots.old.items ++ ranked_slots (said a.now s) extra before c) }
{
    if count_before(a, s, c) == before && class(a, s, Likeness::Equal, c) == c {
        push_block(a, s, extra, c, slots)?;
    }
    Ok(())
}

// How many constants happen before one.
fn count_before(a: &[bool], s: Shape, c: u32) -> u32
    ensures { result ≡ rank (said a.now s) c }
{
    let mut count = 0;
    for i in 0..s.constants {
        if related(a, s, PairKind::Hb, i, c) {
            count += 1;
        }
    }
    count
}

fn push_block(
    a: &[bool],
    s: Shape,
    extra: Extra,
    c: u32,
    slots: &mut Vec<Slot>,
) -> Result<(), NoMemory>
    ensures { OnOk result
        (slots.new.items ≡ slots.old.items ++ block_slots (said a.now s) extra c) }
{
    push_part(a, s, extra, c, Part::Opening, slots)?;
    push_part(a, s, extra, c, Part::Aide, slots)?;
    push_part(a, s, extra, c, Part::Own, slots)?;
    push_part(a, s, extra, c, Part::Closing, slots)
}

fn push_part(
    a: &[bool],
    s: Shape,
    extra: Extra,
    c: u32,
    part: Part,
    slots: &mut Vec<Slot>,
) -> Result<(), NoMemory>
    ensures { OnOk result
        (slots.new.items ≡ slots.old.items ++ part_slots (said a.now s) extra c part) }
{
    if has(a, s, extra, c, part) {
        slots.push(Slot { block: c, part })?;
    }
    Ok(())
}

// Whether the block has the part.
fn has(a: &[bool], s: Shape, extra: Extra, c: u32, part: Part) -> bool
    ensures { result ≡ has_part (said a.now s) extra c part }
{
    match part {
        Part::Own => true,
        Part::Aide => extra.aides && is_needed(a, s, part, c),
        Part::Opening => extra.links && is_needed(a, s, part, c),
        Part::Closing => extra.links && is_needed(a, s, part, c),
    }
}

// Whether some constant is a reason for the block to have the part.
fn is_needed(a: &[bool], s: Shape, part: Part, c: u32) -> bool
    ensures { result ≡ some_below s.constants (needs (said a.now s) part c) }
{
    for i in 0..s.constants {
        if is_why(a, s, part, c, i) {
            return true;
        }
    }
    false
}

fn is_why(a: &[bool], s: Shape, part: Part, c: u32, i: u32) -> bool
    ensures { result ≡ needs (said a.now s) part c i }
{
    match part {
        Part::Opening => are_linked(a, s, i, c),
        Part::Aide => related(a, s, PairKind::Hbo, i, c) && !related(a, s, PairKind::Vis, i, c),
        Part::Own => true,
        Part::Closing => are_linked(a, s, c, i),
    }
}

// Whether one constant happens before another, though not in its session and not seen by it.
fn are_linked(a: &[bool], s: Shape, i: u32, j: u32) -> bool
    ensures { result ≡ is_link (said a.now s) i j }
{
    related(a, s, PairKind::Hb, i, j)
        && (!related(a, s, PairKind::So, i, j) && !related(a, s, PairKind::Vis, i, j))
}
