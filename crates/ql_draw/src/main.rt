// The program `draw`: from its arguments and the files that they name to one picture in SVG. It prints nothing but what
// its top call writes, and its exit status is that call's.
// The one contract: for all arguments, all files and whatever the outside does, one text is written that the outcome
// allows; a picture is the text of a value in which each effect is drawn once, in its column and its row.
#![tactic(auto)]

mod drawing;
mod help;
mod outcome;
mod program;
mod sheet;
mod words;

use crate::program::draw;
use ql_ports::{FileShelf, StdSink};
use ql_reply::{arguments, exit_number};
use std::process::ExitCode;

fn main(rt: HostRuntime) -> ExitCode {
    match arguments(&rt) {
        Ok(words) => ExitCode::from(run(rt, &words)),
        Err(number) => ExitCode::from(number),
    }
}

// Draws what the arguments ask for, and returns the exit status.
fn run(rt: HostRuntime, words: &Vec<String>) -> u8 {
    let mut shelf = FileShelf::new(rt.alloc(), rt);
    let mut sink = StdSink::new(rt);
    exit_number(draw(rt.alloc(), words, &mut shelf, &mut sink))
}
