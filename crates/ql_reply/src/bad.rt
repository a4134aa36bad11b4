ghost use Rattle.std.specs.Prelude.{◌≡◌, IfOk};
ghost use Rattle.ql_reply.specs.Lines.{fault_line};

use ql_base::{NoMemory, push_bytes, push_number};
use std::alloc::Global;

/// The line that reports the first fault of a file: what the file should be, the offset or the line of the fault, and the
/// rule that is broken.
pub fn bad_line(alloc: Global, part: &str, at: u64, rule: &str) -> Result<Vec<u8>, NoMemory>
    ensures { IfOk result (λ text. text.items ≡ fault_line part.now at rule.now) }
{
    let mut text = Vec::from_slice(alloc, b"bad ")?;
    push_bytes(&mut text, part.as_bytes())?;
    push_bytes(&mut text, b" at ")?;
    push_number(&mut text, at)?;
    push_bytes(&mut text, b": ")?;
    push_bytes(&mut text, rule.as_bytes())?;
    push_bytes(&mut text, b"\n")?;
    Ok(text)
}
