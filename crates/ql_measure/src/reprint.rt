// Prints the sources of files in their one spelling. With `--check` as its first argument it only reports for each file
// whether it is a source.
use crate::MOST_BYTES;
use ql_base::NoMemory;
use ql_lang::print_program;
use ql_parse::{ParseFault, parse_program};
use ql_reply::Status;
use std::alloc::Global;
use std::io::Write;
use std::{fs, io};

/// Prints what is said of each file.
pub(crate) fn measure(rt: &HostRuntime, words: &[String]) -> io::Result<Status> {
    let check = words.first().is_some_and(|word| word.as_str() == "--check");
    for path in words.iter().skip(check as usize) {
        let text = fs::read(rt, path)?;
        match said(rt.alloc(), text.as_slice(), check) {
            Ok(said) => rt.stdout().write_all(said.as_slice())?,
            Err(NoMemory) => println!(rt; "{path}: no memory")?,
        }
    }
    Ok(Status::Done)
}

// What is printed for a text: the source in its one spelling, or whether it is one.
fn said(alloc: Global, text: &[u8], check: bool) -> Result<Vec<u8>, NoMemory> {
    if text.len() > MOST_BYTES {
        return Ok(Vec::from_slice(alloc, b"too long\n")?);
    }
    match parse_program(alloc, text) {
        Ok(_) if check => Ok(Vec::from_slice(alloc, b"a source\n")?),
        Ok(program) => print_program(alloc, &program),
        Err(ParseFault::NoMemory) => Err(NoMemory),
        Err(_) => Ok(Vec::from_slice(alloc, b"no source\n")?),
    }
}
