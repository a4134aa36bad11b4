// Clause lists as text: `p cnf VARIABLES CLAUSES`, then numbers with a 0 at the end of each clause.
// Lines that begin with `c` are comments.
use ql_base::NoMemory;
use ql_cnf::{Clauses, Lit, are_in_range};
use std::alloc::Global;

// The clauses of a text; none where it isn't one.
pub fn clauses(alloc: Global, text: &str) -> Result<Option<Clauses>, NoMemory> {
    let Some(variables) = variables(text) else {
        return Ok(None);
    };
    let mut clauses = Clauses::new(alloc, variables);
    let mut lits = Vec::new(alloc);
    for line in text.lines() {
        if is_said(line) && !add_line(line, &mut lits, &mut clauses)? {
            return Ok(None);
        }
    }
    Ok(lits.is_empty().then_some(clauses))
}

// The number of variables in the line that begins with `p`.
fn variables(text: &str) -> Option<u32> {
    let line = text.lines().find(|line| line.starts_with("p "))?;
    line.split_whitespace().nth(2)?.parse::<u32>().ok()
}

fn is_said(line: &str) -> bool {
    !line.starts_with("p") && !line.starts_with("c")
}

// Reads the numbers of a line; false where one of them doesn't fit a clause.
fn add_line(line: &str, lits: &mut Vec<Lit>, clauses: &mut Clauses) -> Result<bool, NoMemory> {
    for word in line.split_whitespace() {
        match word.parse::<i32>() {
            Ok(0) => {
                if !are_in_range(lits, clauses.variables()) || clauses.len() == u32::MAX {
                    return Ok(false);
                }
                clauses.add(lits)?;
                lits.clear();
            }
            Ok(number) => lits.push(Lit {
                var: number.unsigned_abs(),
                positive: number > 0,
            })?,
            Err(_) => return Ok(false),
        }
    }
    Ok(true)
}
