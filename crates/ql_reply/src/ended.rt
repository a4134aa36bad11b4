// What a call leaves for a note on its answer.

use crate::reply::{Cause, Reply};
use crate::status::Status;
use std::alloc::Global;

/// An answer, and the bytes of the files as they were read for it, in the order of the arguments. Those of a file that
/// wasn't read are empty.
#[derive(Drop)]
pub struct Answered {
    pub reply: Reply,
    pub first: Vec<u8>,
    pub second: Vec<u8>,
}

impl Answered {
    ghost use Rattle.std.specs.Prelude.{◌≡◌};

    /// An answer for which no file was read whole.
    pub fn without_files(alloc: Global, reply: Reply) -> Answered
        ensures { result.reply ≡ reply }
    {
        Answered {
            reply,
            first: Vec::new(alloc),
            second: Vec::new(alloc),
        }
    }
}

/// How a call ended, what its answer is about, and the bytes of the files as they were read.
#[derive(Drop)]
pub struct Ended {
    pub status: Status,
    pub cause: Cause,
    pub first: Vec<u8>,
    pub second: Vec<u8>,
}
