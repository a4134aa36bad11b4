// Prints schedules for the program of a source in their one spelling: the source is the first argument, and the
// schedules follow it. It is measured against a plain program.
use crate::MOST_BYTES;
use ql_base::NoMemory;
use ql_parse::parse_program;
use ql_reply::Status;
use ql_schedule::{SchedFault, parse_schedule, print_schedule};
use ql_typing::{Typed, typecheck};
use std::alloc::Global;
use std::io::Write;
use std::{fs, io};

/// Prints what is said of each schedule.
pub(crate) fn measure(rt: &HostRuntime, paths: &[String]) -> io::Result<Status> {
    let Some((source, schedules)) = paths.split_first() else {
        return Ok(Status::Done);
    };
    let text = fs::read(rt, source)?;
    let Some(typed) = typed_of(rt.alloc(), text.as_slice()) else {
        println!(rt; "{source}: no source")?;
        return Ok(Status::Done);
    };
    for path in schedules.iter() {
        let text = fs::read(rt, path)?;
        match printed(rt.alloc(), &typed, text.as_slice()) {
            Ok(printed) => rt.stdout().write_all(printed.as_slice())?,
            Err(NoMemory) => println!(rt; "{path}: no memory")?,
        }
    }
    Ok(Status::Done)
}

// The program of a source; none where the text isn't one, or if out of memory.
fn typed_of(alloc: Global, text: &[u8]) -> Option<Typed> {
    if text.len() > MOST_BYTES {
        return None;
    }
    let program = match parse_program(alloc, text) {
        Ok(program) => program,
        Err(_) => return None,
    };
    match typecheck(alloc, program) {
        Ok(typed) => Some(typed),
        Err(_) => None,
    }
}

// What is printed for a text: the schedule in its one spelling, or that it isn't a schedule.
fn printed(alloc: Global, typed: &Typed, text: &[u8]) -> Result<Vec<u8>, NoMemory> {
    if text.len() > MOST_BYTES {
        return Ok(Vec::from_slice(alloc, b"too long\n")?);
    }
    match parse_schedule(alloc, typed, text) {
        Ok(schedule) => print_schedule(alloc, typed, &schedule),
        Err(SchedFault::NoMemory) => Err(NoMemory),
        Err(_) => Ok(Vec::from_slice(alloc, b"no schedule\n")?),
    }
}
