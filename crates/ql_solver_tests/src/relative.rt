ghost use Rattle.std.specs.Prelude.{◌≡◌, IfOk, length};
ghost use Rattle.ql_relative.specs.OfPrograms.{AreFor};

use crate::texts::push_literals;
use ql_base::{NoMemory, push_bytes, push_number};
use ql_cnf::Clauses;
use ql_levels::{Level, Levels, TxnLevel, level_of, txn_of};
use ql_relative::relative;
use ql_test_inputs::{check_table, declared, field, number, spelled};
use ql_typing::Typed;
use std::alloc::Global;
use std::test::Fail;

// A document that is revoked, and viewed.
const DOCUMENT: &str = r"
type doc { state open: bool = true;
  op revoke(): unit {
    contract forall a: revoke | view. sameobj(a, cur) => vis(a, cur) \/ vis(cur, a) \/ a = cur;
    answer unit; emit o: bool = false when open; apply { open := o; } }
  op view(): bool {
    contract forall a: revoke. sameobj(a, cur) => vis(a, cur) \/ vis(cur, a); answer open; } }
transaction pair { uses view;
  contract forall a, b, c, d. txn{a, b}{c, d} /\ vis(c, a) /\ sameobj(d, b) => vis(d, b); }
";

// The levels of its targets, a target, and a clause of the target's relative problem; the variables of the problem,
// its clauses, and the clause.
const PROBLEMS: &str = "
strong eventual rr 1 120 -> 36 127 13 -15 -18
strong eventual rr 1 121 -> 36 127 -13 15 -19
strong eventual rr 1 122 -> 36 127 14 -16 -18
strong eventual rr 1 123 -> 36 127 -14 16 -19
strong eventual rr 1 124 -> 36 127 1 -9 13 -31
strong eventual rr 1 125 -> 36 127 3 -11 14 15 -31
strong eventual rr 1 126 -> 36 127 2 -10 14 15 -32
strong eventual rr 1 127 -> 36 127 4 -12 16 -32
wide causal rr 1 124 -> 36 131 -9 13 -21 -31
wide causal rr 1 126 -> 36 131 13 -17 -33
wide causal rr 1 131 -> 36 131 16 -20 -34
strong eventual rr 2 1316 -> 130 1383 49 -53 -66
strong eventual rr 2 1379 -> 130 1383 16 -48 64 -120
strong eventual rr 2 1383 -> 130 1383 -116 124
strong eventual mav 2 1352 -> 130 1419 49 -53 -66
strong eventual rc 2 1287 -> 130 1287 -116 124
";

#[test]
fn relative_problems_are_the_written_ones(rt: HostRuntime) -> Result<(), Fail> {
    check_table(rt.alloc(), PROBLEMS, problem_text)
}

fn problem_text(alloc: Global, row: &str) -> Result<Vec<u8>, NoMemory> {
    match document_problem(alloc, row)? {
        Some(clauses) => clause_text(alloc, &clauses, number(row, 4)),
        None => spelled(alloc, "no problem"),
    }
}

fn document_problem(alloc: Global, row: &str) -> Result<Option<Clauses>, NoMemory> {
    let Some(typed) = declared(alloc, DOCUMENT) else {
        return Ok(None);
    };
    if typed.ops() != 2 || typed.txns() != 1 {
        return Ok(None);
    }
    problem(alloc, &typed, &levels(alloc, row)?, number(row, 3))
}

fn problem(
    alloc: Global,
    typed: &Typed,
    levels: &Levels,
    target: u32,
) -> Result<Option<Clauses>, NoMemory>
    requires levels { AreFor typed.now.program levels.now }
{
    if target >= typed.ops() + typed.txns() {
        return Ok(None);
    }
    Ok(Some(relative(alloc, typed, levels, target)?))
}

// The levels of two operations and a transaction.
fn levels(alloc: Global, row: &str) -> Result<Levels, NoMemory>
    ensures ops { IfOk result (λ levels. length levels.ops ≡ 2) }
    ensures txns { IfOk result (λ levels. length levels.txns ≡ 1) }
{
    let ops = [level(field(row, 0)), level(field(row, 1))].to_vec(alloc)?;
    let txns = [txn_level(field(row, 2))].to_vec(alloc)?;
    Ok(Levels::of(ops, txns))
}

fn level(word: &str) -> Level {
    level_of(word.as_bytes()).unwrap_or(Level::Eventual)
}

fn txn_level(word: &str) -> TxnLevel {
    txn_of(word.as_bytes()).unwrap_or(TxnLevel::Rc)
}

fn clause_text(alloc: Global, clauses: &Clauses, number: u32) -> Result<Vec<u8>, NoMemory> {
    let mut out = Vec::new(alloc);
    push_number(&mut out, clauses.variables())?;
    push_bytes(&mut out, b" ")?;
    push_number(&mut out, clauses.len())?;
    if 1 <= number && number <= clauses.len() {
        push_literals(&mut out, clauses.clause(number).items())?;
    }
    Ok(out)
}
