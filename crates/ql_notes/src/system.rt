// Notes on standard error, and why a file can't be read.

use crate::notes::note;
use ql_ports::ReadFailure;
use ql_reply::{Ended, Status};
use std::env;
use std::env::Env;
use std::io::{Eprint, IsTerminal, Write};

/// Writes the note on how a call ended to standard error, if notes are wanted; for a file that can't be read, the
/// system's reason. Out of memory, or if standard error fails, no note is written.
pub fn write_notes(
    rt: HostRuntime,
    words: &Vec<String>,
    ended: &Ended,
    failure: Option<&ReadFailure>,
) {
    if !wants_notes(&rt, rt.stderr().is_terminal()) {
        return;
    }
    if let Ok(text) = note(rt.alloc(), words, ended) {
        let _ = rt.stderr().write_all(&text);
    }
    if ended.status == Status::ReadFault
        && let Some(failure) = failure
    {
        let _ = eprintln!(rt; "{}: {}", failure.name.as_str(), failure.error);
    }
}

// Whether notes are wanted: always if QUELEA_NOTES is 1, never if it is 0, and otherwise on a terminal.
fn wants_notes<R: Env + AllocGlobal>(rt: &R, is_terminal: bool) -> bool {
    match env::var(rt, "QUELEA_NOTES") {
        Ok(value) => value.as_str() == "1" || (is_terminal && value.as_str() != "0"),
        Err(_) => is_terminal,
    }
}
