// The program `quelea`: the command line, the system's files and standard output, given to the top
// call. On standard output it prints nothing itself, and its exit status is the top call's. Notes on the
// answer go to standard error, after it.
#![tactic(auto)]

use ql_app::quelea;
use ql_base::NoMemory;
use ql_notes::{KeptSink, write_notes};
use ql_ports::{FileShelf, StdSink};
use ql_reply::{NO_MEMORY, arguments};
use std::process::ExitCode;

fn main(rt: HostRuntime) -> ExitCode {
    match arguments(&rt) {
        Ok(words) => ExitCode::from(exit_number(rt, &words)),
        Err(number) => ExitCode::from(number),
    }
}

fn exit_number(rt: HostRuntime, words: &Vec<String>) -> u8 {
    let mut shelf = FileShelf::new(rt.alloc(), rt);
    let mut sink = KeptSink::over(StdSink::new(rt));
    match quelea(rt.alloc(), words, &mut shelf, &mut sink) {
        Ok(status) => {
            write_notes(rt, words, status.number(), sink.printed(), &mut shelf);
            status.number()
        }
        Err(NoMemory) => NO_MEMORY,
    }
}
