// Whether the sections of a certificate are those that are expected.
ghost use Rattle.std.specs.Prelude.{◌≡◌, ◌↔◌, ◌<◌, ◌≤◌, IfNone, IsTrue, MatchOption, Some, IfOk, length, map, slice_get};
ghost use Rattle.ql_reply.specs.declared.status.Status.TheVariants.{No};
ghost use Rattle.ql_commands.specs.Check.{AreExpected, IsOutOfOrder, Operation, Transaction, order_text, target_of, expected_targets};

use ql_base::{DeclId, NoMemory, OpId, push_bytes, push_number};
use ql_cert::{Section, SectionLevel};
use ql_reply::{Cause, Reply, Status};
use ql_typing::Typed;
use std::alloc::Global;

/// The first position, from 1, at which the sections aren't those that are expected.
pub(crate) fn first_out_of_order(t: &Typed, sections: &[Section]) -> Option<u32>
    ensures order { MatchOption result (AreExpected t.now.program sections.now)
        (IsOutOfOrder t.now.program sections.now) }
    ensures few { IfNone result (length sections.now ≤ 48) }
{
    let targets = t.ops() + t.txns();
    for place in 0..targets {
        if !is_expected(t, place, sections) {
            return Some(place + 1);
        }
    }
    if sections.len() > targets as usize {
        Some(targets + 1)
    } else {
        None
    }
}

// Whether the section of an index is of the target that is expected there.
fn is_expected(t: &Typed, place: u32, sections: &[Section]) -> bool
    requires { place < length (expected_targets t.now.program) }
    ensures { IsTrue result
        ↔ (slice_get (expected_targets t.now.program) place
        ≡ slice_get (map target_of sections.now) place) }
{
    let Some(section) = sections.get(place as usize) else {
        return false;
    };
    match section.level {
        SectionLevel::Op(_) => is_op_expected(t, place, section.name.bytes()),
        SectionLevel::Txn(_) => is_txn_expected(t, place, section.name.bytes()),
    }
}

// Whether the operation of a name is expected.
fn is_op_expected(t: &Typed, place: u32, name: &[u8]) -> bool
    ensures { IsTrue result
        ↔ (slice_get (expected_targets t.now.program) place ≡ Some (Operation name.now)) }
{
    if place >= t.ops() {
        return false;
    }
    t.op(OpId(place)).name.word.bytes() == name
}

// Whether the transaction of a name is expected.
fn is_txn_expected(t: &Typed, place: u32, name: &[u8]) -> bool
    ensures { IsTrue result
        ↔ (slice_get (expected_targets t.now.program) place ≡ Some (Transaction name.now)) }
{
    if place < t.ops() {
        return false;
    }
    let number = place - t.ops();
    if number >= t.txns() {
        return false;
    }
    t.txn(DeclId(number)).name.word.bytes() == name
}

/// The answer on sections that are out of order from a position on.
pub(crate) fn out_of_order(alloc: Global, place: u32) -> Result<Reply, NoMemory>
    ensures status { IfOk result (λ reply. reply.status ≡ No) }
    ensures text { IfOk result (λ reply. reply.text.items ≡ order_text place) }
{
    let mut text = Vec::from_slice(alloc, b"order ")?;
    push_number(&mut text, place)?;
    push_bytes(&mut text, b"\n")?;
    Ok(Reply {
        status: Status::No,
        text,
        cause: Cause::Order(place),
    })
}
