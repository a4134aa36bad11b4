ghost use Rattle.std.specs.Prelude.{◌≡◌, ◌++◌, IfOk, decimal};

use ql_base::{NoMemory, push_bytes, push_number};
use std::alloc::Global;

/// A text with a number in it.
pub(crate) fn at_line(
    alloc: Global,
    before: &[u8],
    line: u64,
    after: &[u8],
) -> Result<Vec<u8>, NoMemory>
    ensures { IfOk result (λ text. text.items ≡ before.now ++ decimal line ++ after.now) }
{
    let mut text = Vec::from_slice(alloc, before)?;
    push_number(&mut text, line)?;
    push_bytes(&mut text, after)?;
    Ok(text)
}
