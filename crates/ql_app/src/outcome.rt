ghost use Rattle.std.specs.Prelude.{◌≡◌, ◌<◌, ◌≤◌, ◌^◌, ◌↔◌, ℕ, List, IfOk, length};
ghost use Rattle.ql_app.specs.MissingFiles.{ReportsMissing};
ghost use Rattle.ql_app.specs.Outcome.{CommandSays, PairSays, Says, RequestSays, second_limit};
ghost use Rattle.ql_app.specs.Words.{NamedRequest, IsInRange, IsRequest, OneFile, TwoFiles};
ghost use Rattle.ql_reply.specs.Arguments.{word_texts};
ghost use Rattle.ql_reply.specs.Unread.{IsUnread};

use crate::holds::holds;
use crate::proof::check_proof;
use crate::words::{Command, PairCommand, Request, parse_words};
use ql_base::NoMemory;
use ql_commands::{check, classify, prove};
use ql_generated::{generate, soak};
use ql_judging::verify;
use ql_ports::{ReadWhy, Shelf, read_whole};
use ql_reply::{Answered, Cause, Reply, Status, unread};
use ql_restart::restart_run;
use ql_running::run;
use ql_slimming::slim_run;
use ql_why::classify_with_reasons;
use std::alloc::Global;

/// The greatest lengths of files in bytes: of sources, schedules and the files of `holds` and `proof`, and of certificates
/// and executions, which are second files.
#[derive(Clone, Copy)]
pub struct Limits {
    pub file: u32,
    pub second: u32,
}

/// What answers the arguments. The files that they name are read once, to their ends, in the order
/// of the arguments.
pub fn outcome<S: Shelf>(
    alloc: Global,
    words: &Vec<String>,
    shelf: &mut S,
    limits: Limits,
) -> Result<Answered, NoMemory>
    ensures says { IfOk result (λ answered. Says limits (word_texts words.now) (S.held shelf.old)
        (S.faults shelf.old) (S.faults shelf.new) answered.reply.status answered.reply.text.items) }
    ensures lacking { (named : NamedRequest) → IsRequest (word_texts words.now) named
        → IfOk result (λ answered. ReportsMissing (S.lacks shelf.old) named answered.reply.status
        answered.reply.text.items) }
    ensures same_contents { (other : List ℕ) → S.held shelf.new other ≡ S.held shelf.old other }
    ensures same_files { (other : List ℕ) → S.lacks shelf.new other ↔ S.lacks shelf.old other }
    ensures counts_stay { (other : List ℕ) → S.faults shelf.old other ≤ S.faults shelf.new other }
{
    match parse_words(words) {
        None => {
            let text = Vec::from_slice(alloc, b"usage\n")?;
            Ok(Answered::without_files(
                alloc,
                Reply {
                    status: Status::Usage,
                    text,
                    cause: Cause::Text,
                },
            ))
        }
        Some(Request::OneFile(command, name)) => of_file(alloc, command, shelf, name, limits),
        Some(Request::TwoFiles(command, name, other)) => {
            of_files(alloc, command, shelf, name, other, limits)
        }
    }
}

fn of_file<S: Shelf>(
    alloc: Global,
    command: Command,
    shelf: &mut S,
    name: &str,
    limits: Limits,
) -> Result<Answered, NoMemory>
    requires { IsInRange command }
    ensures says { IfOk result
        (λ answered. RequestSays limits (S.held shelf.old) (S.faults shelf.old) (S.faults shelf.new)
        (OneFile command name.now) answered.reply.status answered.reply.text.items) }
    ensures lacking { IfOk result (λ answered. ReportsMissing (S.lacks shelf.old)
        (OneFile command name.now) answered.reply.status answered.reply.text.items) }
    ensures same_contents { (other : List ℕ) → S.held shelf.new other ≡ S.held shelf.old other }
    ensures same_files { (other : List ℕ) → S.lacks shelf.new other ↔ S.lacks shelf.old other }
    ensures counts_stay { (other : List ℕ) → S.faults shelf.old other ≤ S.faults shelf.new other }
{
    match read_whole(alloc, shelf, name, limits.file as u64) {
        Ok(first) => Ok(Answered {
            reply: answer_command(alloc, command, first.as_slice())?,
            first,
            second: Vec::new(alloc),
        }),
        Err(error) => without_file(alloc, error, name),
    }
}

fn of_files<S: Shelf>(
    alloc: Global,
    command: PairCommand,
    shelf: &mut S,
    name: &str,
    other: &str,
    limits: Limits,
) -> Result<Answered, NoMemory>
    ensures says { IfOk result
        (λ answered. RequestSays limits (S.held shelf.old) (S.faults shelf.old) (S.faults shelf.new)
        (TwoFiles command name.now other.now) answered.reply.status answered.reply.text.items) }
    ensures lacking { IfOk result (λ answered. ReportsMissing (S.lacks shelf.old)
        (TwoFiles command name.now other.now) answered.reply.status answered.reply.text.items) }
    ensures same_contents { (third : List ℕ) → S.held shelf.new third ≡ S.held shelf.old third }
    ensures same_files { (third : List ℕ) → S.lacks shelf.new third ↔ S.lacks shelf.old third }
    ensures counts_stay { (third : List ℕ) → S.faults shelf.old third ≤ S.faults shelf.new third }
{
    let first = match read_whole(alloc, shelf, name, limits.file as u64) {
        Ok(first) => first,
        Err(error) => return without_file(alloc, error, name),
    };
    let second = match read_whole(alloc, shelf, other, second_limit(limits, command) as u64) {
        Ok(second) => second,
        Err(error) => return without_file(alloc, error, other),
    };
    Ok(Answered {
        reply: answer_pair(alloc, command, first.as_slice(), second.as_slice())?,
        first,
        second,
    })
}

// The answer if the file with this name couldn't be read whole.
fn without_file(alloc: Global, error: ReadWhy, name: &str) -> Result<Answered, NoMemory>
    ensures { IfOk result
        (λ answered. IsUnread error name.now answered.reply.status answered.reply.text.items) }
{
    Ok(Answered::without_files(alloc, unread(alloc, error, name)?))
}

fn answer_command(alloc: Global, command: Command, bytes: &[u8]) -> Result<Reply, NoMemory>
    requires short { length bytes.now < 2 ^ 32 }
    requires in_range { IsInRange command }
    ensures { IfOk result (λ reply. CommandSays command bytes.now reply.status reply.text.items) }
{
    match command {
        Command::Holds => holds(alloc, bytes),
        Command::Proof => check_proof(alloc, bytes),
        Command::Classify => classify(alloc, bytes),
        Command::ClassifyWhy => classify_with_reasons(alloc, bytes),
        Command::Prove => prove(alloc, bytes),
        Command::Gen { number, events } => generate(alloc, bytes, number, events),
        Command::Soak { number } => soak(alloc, bytes, number),
    }
}

fn answer_pair(
    alloc: Global,
    command: PairCommand,
    bytes: &[u8],
    more: &[u8],
) -> Result<Reply, NoMemory>
    requires { length bytes.now < 2 ^ 32 }
    ensures { IfOk result (λ reply. PairSays command bytes.now more.now reply.status reply.text.items) }
{
    match command {
        PairCommand::Check => check(alloc, bytes, more),
        PairCommand::Verify => verify(alloc, bytes, more),
        PairCommand::Run(form) => run(alloc, form, bytes, more),
        PairCommand::Slim => slim_run(alloc, bytes, more),
        PairCommand::Restart { replica, cut } => {
            restart_run(alloc, bytes, more, replica, u64::from(cut))
        }
    }
}

// The limit of a command's second file.
fn second_limit(limits: Limits, command: PairCommand) -> u32
    ensures { result ≡ second_limit limits command }
{
    match command {
        PairCommand::Check | PairCommand::Verify => limits.second,
        PairCommand::Run(_) | PairCommand::Slim | PairCommand::Restart { .. } => limits.file,
    }
}
