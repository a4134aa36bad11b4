// Measurements of single parts: each reads its files, if it has any, has one library do its work, and prints the answer. The
// scripts in `bench/` run them. The first argument picks one.
#![tactic(auto)]

mod batch;
mod dimacs;
mod problems;
mod reprint;
mod reprint_schedule;
mod solve;
mod stops;

use batch::measure_lines;
use ql_reply::{Status, read_arguments};
use std::io;
use std::process::ExitCode;

// The most bytes of a source, and of a schedule.
const MOST_BYTES: usize = 1 << 20;

const USAGE: &str = "usage: ql_measure stops (journal | recover) FILE
       ql_measure reprint [--check] FILE ..
       ql_measure reprint_schedule SOURCE FILE ..
       ql_measure problems [--clauses] FILE ..
       ql_measure solve FILE ..
       ql_measure batch FILE";

fn main(rt: HostRuntime) -> io::Result<ExitCode> {
    let words = read_arguments(&rt)?;
    let status = match words.as_slice() {
        [name, path] if name.as_str() == "batch" => measure_lines(&rt, path.as_str())?,
        words => measure(&rt, words)?,
    };
    Ok(ExitCode::from(status.number()))
}

// Makes the measurement that the first word names.
fn measure(rt: &HostRuntime, words: &[String]) -> io::Result<Status> {
    let Some((name, rest)) = words.split_first() else {
        return print_usage(rt);
    };
    match name.as_str() {
        "stops" => stops::measure(rt, rest),
        "reprint" => reprint::measure(rt, rest),
        "reprint_schedule" => reprint_schedule::measure(rt, rest),
        "problems" => problems::measure(rt, rest),
        "solve" => solve::measure(rt, rest),
        _ => print_usage(rt),
    }
}

fn print_usage(rt: &HostRuntime) -> io::Result<Status> {
    println!(rt; "{USAGE}")?;
    Ok(Status::Usage)
}
