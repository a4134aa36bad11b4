use ql_base::{NoMemory, OpId, push_bytes, push_number};
use ql_lang::{Body, Formula};
use ql_levels::{Level, Levels, TxnLevel, formula, level_of, txn_formula, txn_of};
use ql_test_inputs::check_table;
use std::alloc::Global;
use std::test::Fail;

// Levels, with the number of variables and the uppermost connective of their formulas.
const FORMULAS: &str = "
eventual -> 2 implies
causal -> 1 implies
wide -> 1 implies
strong -> 1 implies
rc -> 3 implies
mav -> 4 and
rr -> 4 implies
";

#[test]
fn formulas_are_made(rt: HostRuntime) -> Result<(), Fail> {
    check_table(rt.alloc(), FORMULAS, outline)
}

fn outline(alloc: Global, level: &str) -> Result<Vec<u8>, NoMemory> {
    let formula = match level_of(level.as_bytes()) {
        Some(level) => formula(alloc, level)?,
        None => txn_formula(alloc, txn_of(level.as_bytes()).unwrap_or(TxnLevel::Rc))?,
    };
    let mut out = Vec::new(alloc);
    push_number(&mut out, formula.vars.items().len())?;
    push_bytes(&mut out, connective(&formula))?;
    Ok(out)
}

fn connective(formula: &Formula) -> &'static [u8] {
    match formula.body {
        Body::Implies(_, _) => b" implies",
        Body::And(_, _) => b" and",
        _ => b" other",
    }
}

#[test]
fn copies_are_made(rt: HostRuntime) -> Result<(), Fail> {
    let levels = [Level::Causal].to_vec(rt.alloc())?;
    let levels = Levels::of(levels, Vec::new(rt.alloc())).copy(rt.alloc())?;
    assert!(rt; levels.op(OpId(0)) == Level::Causal);
    Ok(())
}
