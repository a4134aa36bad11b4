use ql_base::{EffId, NoMemory, push_bytes, push_number};
use ql_exec::{Execution, Member};
use ql_holder::Holder;
use ql_journal::StationWhy;
use ql_test_inputs::{draft, id_set, push};
use std::alloc::Global;

/// Two effects on one object, of two sessions. The second sees the first.
pub(crate) fn two_effects(alloc: Global) -> Result<Execution, NoMemory> {
    let mut execution = Execution::new(alloc);
    let first = draft(alloc, 0, 0, Member::Alone, id_set(alloc, &[])?);
    push(&mut execution, first)?;
    let second = draft(alloc, 0, 1, Member::Alone, id_set(alloc, &[1])?);
    push(&mut execution, second)?;
    Ok(execution)
}

/// What a holder received and what it applied.
pub(crate) fn push_held<H: Holder>(
    out: &mut Vec<u8>,
    holder: &H,
    count: u32,
) -> Result<(), NoMemory> {
    push_bytes(out, b"received")?;
    for k in 0..count {
        if holder.has(EffId(k + 1)) {
            push_bytes(out, b" ")?;
            push_number(out, k + 1)?;
        }
    }
    push_bytes(out, b" applied")?;
    for k in 0..count {
        if holder.applied(EffId(k + 1)) {
            push_bytes(out, b" ")?;
            push_number(out, k + 1)?;
        }
    }
    Ok(())
}

/// Why a station wasn't made.
pub(crate) fn push_why(out: &mut Vec<u8>, why: StationWhy) -> Result<(), NoMemory> {
    match why {
        StationWhy::Failed => push_bytes(out, b"failed"),
        StationWhy::Reopen => push_bytes(out, b"reopen"),
        StationWhy::Damaged(at) => {
            push_bytes(out, b"damaged ")?;
            push_number(out, at)
        }
        StationWhy::Stranger(at) => {
            push_bytes(out, b"stranger ")?;
            push_number(out, at)
        }
        StationWhy::NoMemory => Err(NoMemory),
    }
}
