// Prints the ground problem of each goal of a source: its variables, its clauses, and a checksum over all
// literals in their order. With `--clauses` as its first argument it prints the clauses themselves.

use crate::MOST_BYTES;
use ql_base::{DeclId, NoMemory, OpId};
use ql_cnf::{Clause, Clauses};
use ql_commands::{SourceFault, read_source};
use ql_ground::{Goal, problem};
use ql_levels::{Level, TxnLevel, level_word, txn_word};
use ql_parse::ParseFault;
use ql_reply::Status;
use ql_typing::{TypeFault, Typed};
use std::alloc::Global;
use std::fmt::Write;
use std::{fs, io};

// The offset basis and the prime of the 64-bit hash of Fowler, Noll and Vo.
const OFFSET: u64 = 0xcbf29ce484222325;

const PRIME: u64 = 0x100000001b3;

/// Prints the problems of each file.
pub(crate) fn measure(rt: &HostRuntime, words: &[String]) -> io::Result<Status> {
    let whole = words
        .first()
        .is_some_and(|word| word.as_str() == "--clauses");
    for path in words.iter().skip(whole as usize) {
        let text = fs::read_to_string(rt, path)?;
        match text_of(rt.alloc(), text.as_str(), whole) {
            Ok(Some(listing)) => print!(rt; "{path}\n{listing}")?,
            Ok(None) => println!(rt; "{path}: no source")?,
            Err(NoMemory) => println!(rt; "{path}: no memory")?,
        }
    }
    Ok(Status::Done)
}

fn text_of(alloc: Global, text: &str, whole: bool) -> Result<Option<String>, NoMemory> {
    let Some(typed) = typed(alloc, text)? else {
        return Ok(None);
    };
    let mut out = String::new(alloc);
    list_goals(alloc, &typed, whole, &mut out)?;
    Ok(Some(out))
}

// The program of a source; none where the text isn't one.
fn typed(alloc: Global, text: &str) -> Result<Option<Typed>, NoMemory> {
    if text.len() > MOST_BYTES {
        return Ok(None);
    }
    match read_source(alloc, text.as_bytes()) {
        Ok(typed) => Ok(Some(typed)),
        Err(SourceFault::Parse(ParseFault::NoMemory)) => Err(NoMemory),
        Err(SourceFault::Typing(TypeFault::NoMemory)) => Err(NoMemory),
        Err(_) => Ok(None),
    }
}

// A line for each goal, and with `whole` a line for each clause after it.
fn list_goals(alloc: Global, t: &Typed, whole: bool, out: &mut String) -> Result<(), NoMemory> {
    for o in 0..t.ops() {
        for level in [Level::Eventual, Level::Causal, Level::Wide, Level::Strong] {
            let clauses = problem(alloc, t, Goal::OpAt(OpId(o), level))?;
            write!(out, "op {o} {}", level_word(level))?;
            list_problem(&clauses, whole, out)?;
        }
    }
    for d in 0..t.txns() {
        for level in [TxnLevel::Rc, TxnLevel::Mav, TxnLevel::Rr] {
            let clauses = problem(alloc, t, Goal::TxnAt(DeclId(d), level))?;
            write!(out, "transaction {d} {}", txn_word(level))?;
            list_problem(&clauses, whole, out)?;
        }
    }
    Ok(())
}

fn list_problem(clauses: &Clauses, whole: bool, out: &mut String) -> Result<(), NoMemory> {
    let mut sum = OFFSET;
    for k in 0..clauses.len() {
        sum = with_clause(sum, clauses.clause(k + 1));
    }
    writeln!(
        out,
        ": {} variables, {} clauses, {sum}",
        clauses.variables(),
        clauses.len()
    )?;
    if whole {
        for k in 0..clauses.len() {
            list_clause(clauses.clause(k + 1), out)?;
        }
    }
    Ok(())
}

fn list_clause(clause: &Clause, out: &mut String) -> Result<(), NoMemory> {
    for lit in clause.items() {
        let sign = if lit.positive { "" } else { "-" };
        write!(out, "{sign}{} ", lit.var)?;
    }
    writeln!(out, "0")?;
    Ok(())
}

// Adds the literals of a clause and then a 0 to the checksum.
fn with_clause(sum: u64, clause: &Clause) -> u64 {
    let mut sum = sum;
    for lit in clause.items() {
        sum = with_number(sum, 2 * lit.var as u64 + lit.positive as u64);
    }
    with_number(sum, 0)
}

fn with_number(sum: u64, number: u64) -> u64 {
    (sum ^ number).wrapping_mul(PRIME)
}
