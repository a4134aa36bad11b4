// Where the next target is declared.
ghost use Rattle.std.specs.Prelude.{◌≡◌, ◌<◌, ◌^◌, length};
ghost use Rattle.ql_warnings.specs.Kept.{IsLeastBetween};
ghost use Rattle.ql_warnings.specs.Warnings.{IsOpName, IsTargetName, IsTxnName};

use ql_base::{DeclId, OpId};
use ql_lang::Name;
use ql_typing::Typed;

/// The offset of the first target name after an offset, or the source's length.
pub(crate) fn next_name(t: &Typed, source: &[u8], at: u32) -> u32
    requires { length source.now < 2 ^ 32 }
    ensures { IsLeastBetween (IsTargetName t.now.program) at (length source.now) result }
{
    let next = next_op(t, at, source.len() as u32);
    next_txn(t, at, next)
}

// The offset of the first operation name after an offset and before an end, or the end.
fn next_op(t: &Typed, at: u32, end: u32) -> u32
    ensures { IsLeastBetween (IsOpName t.now.program) at end result }
{
    let mut next = end;
    for o in 0..t.ops() {
        next = nearer(at, next, t.op(OpId(o)).name);
    }
    next
}

// The offset of the first transaction name after an offset and before an end, or the end.
fn next_txn(t: &Typed, at: u32, end: u32) -> u32
    ensures { IsLeastBetween (IsTxnName t.now.program) at end result }
{
    let mut next = end;
    for d in 0..t.txns() {
        next = nearer(at, next, t.txn(DeclId(d)).name);
    }
    next
}

fn nearer(at: u32, next: u32, name: Name) -> u32
    ensures { IsLeastBetween (λ n. n ≡ name.at) at next result }
{
    if name.at <= at {
        return next;
    }
    if next <= name.at {
        return next;
    }
    name.at
}
