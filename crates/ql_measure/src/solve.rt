// Decides the clause lists of files in the DIMACS form, one after another, and verifies each answer with
// the checker of refutations or by evaluating the clauses.
use crate::dimacs::clauses;
use ql_base::NoMemory;
use ql_cnf::{Clauses, satisfies};
use ql_refute::{Verdict, check};
use ql_reply::Status;
use ql_sat::{Decided, decide};
use std::alloc::Global;
use std::{fs, io};

/// Prints the answer for each file.
pub(crate) fn measure(rt: &HostRuntime, paths: &[String]) -> io::Result<Status> {
    for path in paths {
        let text = fs::read_to_string(rt, path)?;
        match judge(rt.alloc(), text.as_str()) {
            Ok(Answer::Model) => println!(rt; "{path}: model")?,
            Ok(Answer::Refuted(lines)) => println!(rt; "{path}: refuted {lines} lines")?,
            Ok(Answer::Wrong) => println!(rt; "{path}: wrong answer")?,
            Ok(Answer::BadFile) => println!(rt; "{path}: not a clause list")?,
            Err(NoMemory) => println!(rt; "{path}: no memory")?,
        }
    }
    Ok(Status::Done)
}

// The result for a file.
#[derive(Clone, Copy)]
enum Answer {
    Model,
    // Refuted with this many lines.
    Refuted(usize),
    // The evidence is wrong, which the solver's contract rules out.
    Wrong,
    BadFile,
}

fn judge(alloc: Global, text: &str) -> Result<Answer, NoMemory> {
    match clauses(alloc, text)? {
        Some(clauses) => decided(alloc, &clauses),
        None => Ok(Answer::BadFile),
    }
}

fn decided(alloc: Global, clauses: &Clauses) -> Result<Answer, NoMemory> {
    match decide(alloc, clauses)? {
        Decided::Model(model) if satisfies(&model, clauses) => Ok(Answer::Model),
        Decided::Model(_) => Ok(Answer::Wrong),
        Decided::Refuted(refutation) => {
            let mut marks = vec![in alloc; 0; clauses.variables() as usize + 1]?;
            if check(clauses, &refutation, &mut marks) == Verdict::Accepted {
                Ok(Answer::Refuted(refutation.lines.items().len()))
            } else {
                Ok(Answer::Wrong)
            }
        }
    }
}
