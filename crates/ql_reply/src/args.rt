ghost use Rattle.std.specs.Prelude.{◌≡◌, ◌⊎◌, ◌↔◌, IfErr, IsTrue};
ghost use Rattle.std.specs.IoError.{error_kind};
ghost use Rattle.std.specs.declared.io.ErrorKind.TheVariants.{InvalidData, OutOfMemory};
ghost use Rattle.ql_reply.specs.Arguments.{IsFileName, is_file_name};

use crate::status::NO_MEMORY;
use std::env::Env;
use std::{env, io};

// The exit status of a program whose arguments can't be read, for example because one isn't UTF-8.
const NO_ARGUMENTS: u8 = 8;

/// The arguments of the command line, without the program's own name; or the exit status if they can't be read.
pub fn arguments<R: Env + AllocGlobal>(rt: &R) -> Result<Vec<String>, u8>
    ensures { IfErr result (λ number. (number ≡ 6) ⊎ (number ≡ 8)) }
{
    match read_arguments(rt) {
        Ok(words) => Ok(words),
        Err(error) if error.kind() == io::ErrorKind::OutOfMemory => Err(NO_MEMORY),
        Err(_) => Err(NO_ARGUMENTS),
    }
}

/// The arguments of the command line, without the program's own name; or why they can't be read: out of memory, or one
/// isn't UTF-8.
pub fn read_arguments<R: Env + AllocGlobal>(rt: &R) -> io::Result<Vec<String>>
    ensures { IfErr result (λ error.
        (error_kind error ≡ OutOfMemory) ⊎ (error_kind error ≡ InvalidData)) }
{
    match env::args(rt) {
        Ok(words) => Ok(words.skip(1).collect::<Vec<String>>(rt.alloc())?),
        Err(error) if error.kind() == io::ErrorKind::OutOfMemory => Err(error),
        Err(_) => Err(io::Error::from(io::ErrorKind::InvalidData)),
    }
}

/// Whether an argument may name a file: it has 1 to 255 bytes, and doesn't begin with `-`.
pub fn is_file_name(word: &str) -> bool
    ensures name { IsTrue result ↔ IsFileName word.now }
    ensures value { result ≡ is_file_name word.now }
{
    let bytes = word.as_bytes();
    1 <= bytes.len() && bytes.len() <= 255 && bytes[0] != b'-'
}
