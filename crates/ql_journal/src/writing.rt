ghost use Rattle.std.specs.Prelude.{◌≡◌, ◌≤◌, ◌<◌, ◌^◌, ◌++◌, ◌∷◌, [], ℕ, true, length, slice_index_or, IfOk};
ghost use Rattle.ql_base.specs.IdLists.{IsAscending, has_id};
ghost use Rattle.ql_journal.specs.Records.{body};
ghost use Rattle.ql_journal.specs.Sizes.{record_size};

use ql_base::{IdSet, NoMemory};
use std::alloc::Global;

/// What is written after the gate of a record: its count, its ids, and a closed gate at the end.
pub(crate) fn body_of(alloc: Global, ids: &IdSet) -> Result<Vec<u8>, NoMemory>
    requires { length ids.now ≤ 4000 }
    ensures { IfOk result (λ bytes. bytes.items ≡ body ids.now ++ 0 ∷ []) }
{
    let mut bytes = Vec::with_capacity(alloc, 4 * ids.len() + 5)?;
    bytes.extend_from_slice(&(ids.len() as u32).to_be_bytes())?;
    for id in ids.items() {
        bytes.extend_from_slice(&id.to_be_bytes())?;
    }
    bytes.push(0)?;
    Ok(bytes)
}

/// How many bytes a record of these ids has, with its gate.
pub(crate) fn record_size(ids: &IdSet) -> u64
    requires { length ids.now ≤ 4000 }
    ensures { result ≡ record_size (length ids.now) }
{
    5 + 4 * ids.len() as u64
}

/// The least of some ids.
pub(crate) fn first_id(ids: &IdSet) -> u32
    requires { 1 ≤ length ids.now }
    ensures first { has_id ids.now result ≡ true }
    ensures ascending { IsAscending ids.now }
    ensures small { (i : ℕ) → slice_index_or ids.now i 0 < 2 ^ 32 }
{
    first_of(ids.items())
}

fn first_of(ids: &[u32]) -> u32
    requires { 1 ≤ length ids.now }
    ensures first { has_id ids.now result ≡ true }
    ensures small { (i : ℕ) → slice_index_or ids.now i 0 < 2 ^ 32 }
{
    ids[0]
}
