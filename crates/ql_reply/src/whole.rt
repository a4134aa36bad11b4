ghost use Rattle.std.specs.Prelude.{◌≡◌, ◌++◌, IfOk, codes};
ghost use Rattle.ql_reply.specs.Unread.{IsUnread};

use crate::reply::{Cause, Reply};
use crate::status::Status;
use ql_base::{NoMemory, push_bytes};
use ql_ports::ReadWhy;
use std::alloc::Global;

/// The reply if the file with this name couldn't be read whole.
pub fn unread(alloc: Global, error: ReadWhy, name: &str) -> Result<Reply, NoMemory>
    ensures { IfOk result (λ answer. IsUnread error name.now answer.status answer.text.items) }
{
    match error {
        ReadWhy::Failed => Ok(Reply {
            status: Status::ReadFault,
            text: named(alloc, b"read fault ", name)?,
            cause: Cause::Text,
        }),
        ReadWhy::TooLong => Ok(Reply {
            status: Status::TooLarge,
            text: named(alloc, b"too large ", name)?,
            cause: Cause::Text,
        }),
        ReadWhy::NoMemory => Err(NoMemory),
    }
}

// A line of a text and a name.
fn named(alloc: Global, text: &[u8], name: &str) -> Result<Vec<u8>, NoMemory>
    ensures { IfOk result (λ line. line.items ≡ text.now ++ name.now ++ codes "\n") }
{
    let mut line = Vec::from_slice(alloc, text)?;
    push_bytes(&mut line, name.as_bytes())?;
    push_bytes(&mut line, b"\n")?;
    Ok(line)
}
