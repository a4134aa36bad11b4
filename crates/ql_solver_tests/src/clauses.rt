ghost use Rattle.std.specs.Prelude.{◌≡◌, ◌+◌, ◌*◌, ◌^◌, ◌<◌, IfOk, length};
ghost use Rattle.ql_cnf.specs.Circuits.{circuit_of, InputsInRange, gates};

use crate::texts::{add, clauses_of, literal, literals, push_literals};
use ql_base::{NoMemory, push_bytes, push_number};
use ql_cnf::{Assignment, Clause, Clauses, Ground, clausify, satisfies};
use ql_test_inputs::{check_table, spelled};
use std::alloc::Global;
use std::test::Fail;

// Literals, and their clause over three variables.
const ADDED: &str = "
 -> clause
-3 1 2 -> clause 1 2 -3
-2 1 -2 -> clause 1 -2
2 1 -2 -> none
-1 -1 -> clause -1
";

#[test]
fn adds_the_ascending_clause(rt: HostRuntime) -> Result<(), Fail> {
    check_table(rt.alloc(), ADDED, added)
}

fn added(alloc: Global, row: &str) -> Result<Vec<u8>, NoMemory> {
    let mut clauses = Clauses::new(alloc, 3);
    let is_added = add(&mut clauses, &literals(alloc, row)?)?;
    if is_added && clauses.len() == 1 {
        clause_text(alloc, clauses.clause(1))
    } else {
        spelled(alloc, "none")
    }
}

fn clause_text(alloc: Global, clause: &Clause) -> Result<Vec<u8>, NoMemory> {
    let mut out = spelled(alloc, "clause")?;
    push_literals(&mut out, clause.items())?;
    Ok(out)
}

// A clause, one more literal, and the clause with it.
const EXTENDED: &str = "
1 -3 0 with 2 -> clause 1 2 -3
1 2 0 with 2 -> clause 1 2
1 2 0 with -2 -> none
0 with -1 -> clause -1
";

#[test]
fn adds_one_literal(rt: HostRuntime) -> Result<(), Fail> {
    check_table(rt.alloc(), EXTENDED, extended)
}

fn extended(alloc: Global, row: &str) -> Result<Vec<u8>, NoMemory> {
    let (text, more) = row.split_once(" with ").unwrap_or((row, ""));
    let clauses = clauses_of(alloc, 3, text)?;
    if clauses.len() == 0 {
        return spelled(alloc, "no clause");
    }
    match clauses.clause(1).with(alloc, literal(more))? {
        Some(clause) => clause_text(alloc, &clause),
        None => spelled(alloc, "none"),
    }
}

// Clauses over two variables, the values of the variables, and whether each clause has a true literal.
const SATISFIED: &str = "
1 2 0 -1 0 under 0 1 -> true
1 2 0 -1 0 under 1 1 -> false
1 2 0 -1 0 under 0 0 -> false
";

#[test]
fn assignments_satisfy_clauses(rt: HostRuntime) -> Result<(), Fail> {
    check_table(rt.alloc(), SATISFIED, satisfied)
}

fn satisfied(alloc: Global, row: &str) -> Result<Vec<u8>, NoMemory> {
    let (text, values) = row.split_once(" under ").unwrap_or((row, ""));
    let clauses = clauses_of(alloc, 2, text)?;
    let assignment = assignment(alloc, values.starts_with("1"), values.ends_with("1"))?;
    if clauses.variables() != 2 {
        return spelled(alloc, "other variables");
    }
    let holds = satisfies(&assignment, &clauses);
    spelled(alloc, if holds { "true" } else { "false" })
}

fn assignment(alloc: Global, a: bool, b: bool) -> Result<Assignment, NoMemory>
    ensures { IfOk result (λ values. length values ≡ 2) }
{
    Ok(Assignment::of(vec![in alloc; a, b]?))
}

// A formula over nine variables, and the clauses of its gates and of its negation.
const DENIED: &str = "
true -> 10 variables: 10 0 -10 0
";

#[test]
fn one_clause_a_gate_and_the_denial(rt: HostRuntime) -> Result<(), Fail> {
    check_table(rt.alloc(), DENIED, denied)
}

fn denied(alloc: Global, formula: &str) -> Result<Vec<u8>, NoMemory> {
    if formula != "true" {
        return spelled(alloc, "no formula");
    }
    let clauses = denial(alloc, &Ground::True, 9)?;
    let mut out = Vec::new(alloc);
    push_number(&mut out, clauses.variables())?;
    push_bytes(&mut out, b" variables:")?;
    push_clauses(&mut out, &clauses)?;
    Ok(out)
}

fn denial(alloc: Global, formula: &Ground, variables: u32) -> Result<Clauses, NoMemory>
    requires leaves { InputsInRange variables (circuit_of formula.now) }
    requires variables { variables + gates (circuit_of formula.now) < 2 ^ 32 }
    requires numbered { 3 * gates (circuit_of formula.now) + 1 < 2 ^ 32 }
{
    let mut clauses = Clauses::new(alloc, variables);
    clausify(formula, &mut clauses)?;
    Ok(clauses)
}

fn push_clauses(out: &mut Vec<u8>, clauses: &Clauses) -> Result<(), NoMemory> {
    for number in 0..clauses.len() {
        push_literals(out, clauses.clause(number + 1).items())?;
        push_bytes(out, b" 0")?;
    }
    Ok(())
}
