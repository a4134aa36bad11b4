ghost use Rattle.std.specs.Prelude.{◌≡◌, ◌≤◌, ◌*◌, ◌^◌, IfOk, length};
ghost use Rattle.ql_typing.specs.Operations.{op_contracts, txn_contracts};
ghost use Rattle.ql_verify.specs.Work.{effects_of, runs_of, work_from, work_of};

use crate::runs::runs_of;
use ql_base::{DeclId, NoMemory, OpId};
use ql_exec::{Effect, Execution};
use ql_typing::Typed;
use std::alloc::Global;

/// The work of judging all contracts of a program in an execution.
pub(crate) fn work(alloc: Global, t: &Typed, execution: &Execution) -> Result<u128, NoMemory>
    requires few { length execution.now ≤ 4000 }
    ensures { IfOk result (λ work. work ≡ work_of t.now.program execution.now) }
{
    let ops = work_of_ops(t, execution.effects());
    let txns = work_of_txns(alloc, t, execution.effects())?;
    Ok(ops + txns)
}

fn work_of_ops(t: &Typed, effects: &[Effect]) -> u128
    requires few { length effects.now ≤ 4000 }
    ensures sum { result ≡ work_from (length effects.now) (effects_of effects.now) 0
        (op_contracts t.now.program.types) }
    ensures bounded { result ≤ 32 * 4000 ^ 6 }
{
    let mut work = 0;
    for o in 0..t.ops() {
        let vars = t.op_formula(OpId(o)).vars.items().len();
        work += choices(count(effects, o), effects.len(), vars);
    }
    work
}

fn work_of_txns(alloc: Global, t: &Typed, effects: &[Effect]) -> Result<u128, NoMemory>
    requires few { length effects.now ≤ 4000 }
    ensures sum { IfOk result
        (λ work. work ≡ work_from (length effects.now)
        (λ d. length (runs_of effects.now d)) 0 (txn_contracts t.now.program)) }
    ensures bounded { IfOk result (λ work. work ≤ 16 * 4000 ^ 6) }
{
    let mut work = 0;
    for d in 0..t.txns() {
        let vars = t.txn_formula(DeclId(d)).vars.items().len();
        let runs = runs_of(alloc, effects, d)?;
        work += choices(runs.len(), effects.len(), vars);
    }
    Ok(work)
}

// How many effects are of an operation.
fn count(effects: &[Effect], o: u32) -> usize
    ensures same { result ≡ effects_of effects.now o }
    ensures few { result ≤ length effects.now }
{
    effects.iter().filter(|effect| effect.op.0 == o).count()
}

// The choices of effects for `vars` variables among `effects` effects, `often` times.
fn choices(often: usize, effects: usize, vars: usize) -> u128
    requires some { often ≤ 4000 }
    requires few { effects ≤ 4000 }
    requires vars { vars ≤ 5 }
    ensures product { result ≡ often * effects ^ vars }
    ensures bounded { result ≤ 4000 ^ 6 }
{
    let mut product = often as u128;
    for _k in 0..vars {
        product *= effects as u128;
    }
    product
}
