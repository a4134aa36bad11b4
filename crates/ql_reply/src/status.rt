ghost use Rattle.std.specs.Prelude.{◌≡◌};
ghost use Rattle.ql_reply.specs.Statuses.{exit_number_of};

use ql_base::NoMemory;

/// The exit status of a program that ran out of memory. No `Status` has this number.
pub(crate) const NO_MEMORY: u8 = 6;

/// How a call of a program ended. Its number is the process's exit status.
#[derive(Clone, Copy, PartialEq, Eq)]
pub enum Status {
    /// What was asked for was written; a question was answered with yes.
    Done = 0,
    /// The question was answered with no.
    No = 1,
    /// A file breaks a rule of its format.
    Bad = 2,
    /// A file couldn't be read.
    ReadFault = 3,
    /// The text couldn't be written. A prefix of it may have been.
    WriteFault = 4,
    /// The arguments aren't those of a command.
    Usage = 5,
    /// A file has more bytes than its limit, or the work is above its bound.
    TooLarge = 7,
}

impl Status {
    ghost use Rattle.std.specs.Prelude.{◌≡◌};
    ghost use Rattle.ql_reply.specs.Statuses.{exit_number};

    /// The exit status of a process that ends so. The number 6 means out of memory.
    pub fn number(self) -> u8
        ensures { result ≡ exit_number self }
    {
        self as u8
    }
}

/// The exit status of a program whose call ended so.
pub fn exit_number(ended: Result<Status, NoMemory>) -> u8
    ensures { result ≡ exit_number_of ended }
{
    match ended {
        Ok(status) => status.number(),
        Err(NoMemory) => NO_MEMORY,
    }
}
