ghost use Rattle.std.specs.Prelude.{◌≤◌, IfSome, length};

use ql_base::{Names, NoMemory, RunId};
use ql_exec::Execution;
use ql_execution_files::parse_execution;
use ql_formula::{Relations, holds_txn};
use ql_lang::Formula;
use ql_parse::{few_operations, parse_contract};
use ql_test_inputs::{check_table, declared, number, spelled};
use ql_typing::resolve;
use std::alloc::Global;
use std::test::Fail;

const SOURCE: &str = "type t { op w(): unit { contract true; answer unit; } }
transaction p { uses w; contract true; }";

// A transaction of two effects, the first of which is seen by an effect outside it.
const TRANSACTION: &str = "execution
effect 1 x w () = unit emit - session 1 txn 7:p stamp 1 vis
effect 2 x w () = unit emit - session 1 txn 7:p stamp 2 vis
effect 3 x w () = unit emit - session 2 txn - stamp 2 vis 1
end";

// A contract and a transaction, and whether the contract holds of it. Of one without effects it does.
const AT_TRANSACTIONS: &str = "
forall a, b. txn{a}{b} => a = b at 8 -> holds
forall a, b. txn{a}{b} => a = b at 7 -> fails
";

#[test]
fn a_transaction_without_effects_holds(rt: HostRuntime) -> Result<(), Fail> {
    check_table(rt.alloc(), AT_TRANSACTIONS, judged_of)
}

fn judged_of(alloc: Global, row: &str) -> Result<Vec<u8>, NoMemory> {
    let (contract, run) = row.split_once(" at ").unwrap_or((row, ""));
    let Some(execution) = execution(alloc, TRANSACTION) else {
        return spelled(alloc, "no execution");
    };
    let Some(formula) = formula(alloc, contract, true) else {
        return spelled(alloc, "no formula");
    };
    let relations = Relations::build(alloc, &execution)?;
    let run = RunId(number(run, 0));
    match holds_txn(&formula, &execution, &relations, run) {
        Some(_) => spelled(alloc, "fails"),
        None => spelled(alloc, "holds"),
    }
}

fn execution(alloc: Global, file: &str) -> Option<Execution> {
    let typed = declared(alloc, SOURCE)?;
    parse_execution(alloc, &typed, file.as_bytes()).ok()
}

fn formula(alloc: Global, contract: &str, for_transaction: bool) -> Option<Formula>
    ensures { IfSome result (λ f. length f.vars ≤ 5) }
{
    if contract.len() > 4096 {
        return None;
    }
    few_operations();
    let Ok(tree) = parse_contract(alloc, contract.as_bytes()) else {
        return None;
    };
    let mut operations = Names::new(alloc);
    let formula = resolve(alloc, &tree, &mut operations, for_transaction).ok()?;
    if formula.vars.items().len() <= 5 {
        Some(formula)
    } else {
        None
    }
}
