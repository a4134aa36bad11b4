ghost use Rattle.std.specs.Prelude.{◌≡◌};

use ql_base::{NoMemory, push_bytes, push_number};
use ql_cnf::{Clauses, Lit, are_in_range};
use std::alloc::Global;

/// The literal of a number: its variable, negated where the number is negative.
pub(crate) fn literal(word: &str) -> Lit {
    let number = word.parse::<i32>().unwrap_or(0);
    Lit {
        var: number.unsigned_abs(),
        positive: number > 0,
    }
}

pub(crate) fn literals(alloc: Global, text: &str) -> Result<Vec<Lit>, NoMemory> {
    let mut lits = Vec::new(alloc);
    for word in text.split_whitespace() {
        lits.push(literal(word))?;
    }
    Ok(lits)
}

/// The clauses of a text, each ended by 0, over this many variables. Clauses out of range are left out.
pub(crate) fn clauses_of(alloc: Global, variables: u32, text: &str) -> Result<Clauses, NoMemory> {
    let mut clauses = Clauses::new(alloc, variables);
    let mut lits = Vec::new(alloc);
    for word in text.split_whitespace() {
        let lit = literal(word);
        if lit.var > 0 {
            lits.push(lit)?;
        } else {
            add(&mut clauses, &lits)?;
            lits.clear();
        }
    }
    Ok(clauses)
}

/// Adds a clause, if it is in range.
pub(crate) fn add(clauses: &mut Clauses, lits: &[Lit]) -> Result<bool, NoMemory>
    ensures { clauses.new.variables ≡ clauses.old.variables }
{
    if clauses.len() == u32::MAX || !are_in_range(lits, clauses.variables()) {
        return Ok(false);
    }
    clauses.add(lits)
}

pub(crate) fn push_literals(out: &mut Vec<u8>, lits: &[Lit]) -> Result<(), NoMemory> {
    for lit in lits {
        push_bytes(out, if lit.positive { b" " } else { b" -" })?;
        push_number(out, lit.var)?;
    }
    Ok(())
}
