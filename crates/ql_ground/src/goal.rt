ghost use Rattle.std.specs.Prelude.{◌≡◌, ◌≤◌, length, IfOk};
ghost use Rattle.ql_cnf.specs.Satisfaction.{IsUnsatisfiable};
ghost use Rattle.ql_typing.specs.Operations.{op_kinds};
ghost use Rattle.ql_ground.specs.OfPrograms.{IsGoalOf, IsProblemOf, IsImplied};

use crate::contract_problem::{op_problem, txn_problem};
use ql_base::{DeclId, NoMemory, OpId};
use ql_cnf::Clauses;
use ql_levels::{Level, TxnLevel};
use ql_typing::Typed;
use std::alloc::Global;

/// The question of a ground problem: is a level enough for an operation, or for a declared transaction?
#[derive(Clone, Copy)]
pub enum Goal {
    OpAt(OpId, Level),
    TxnAt(DeclId, TxnLevel),
}

/// The ground problem of a goal. Each assignment that satisfies it is one way in which what the level
/// guarantees could hold where the contract is false.
pub fn problem(alloc: Global, t: &Typed, g: Goal) -> Result<Clauses, NoMemory>
    requires goal { IsGoalOf t.now.program g }

    // The clauses are the written ones, in their order.
    ensures list { IfOk result (λ c. IsProblemOf t.now.program g c) }

    // Where no assignment satisfies them, the level implies the contract in every execution of the program.
    ensures sound { IfOk result (λ c. IsUnsatisfiable c → IsImplied t.now.program g) }
{
    let types = types_of_operations(alloc, t)?;
    match g {
        Goal::OpAt(o, level) => op_problem(alloc, &types, o, level, t.op_formula(o)),
        Goal::TxnAt(d, level) => txn_problem(alloc, &types, level, t.txn_formula(d)),
    }
}

// The number of each operation's type.
fn types_of_operations(alloc: Global, t: &Typed) -> Result<Vec<u32>, NoMemory>
    ensures types { IfOk result (λ types. types.items ≡ op_kinds t.now.program.types) }
    ensures few { IfOk result (λ types. length types.items ≤ 32) }
{
    let count = t.ops();
    let mut types = Vec::with_capacity(alloc, count as usize)?;
    for o in 0..count {
        types.push(t.kind_of(OpId(o)).0)?;
    }
    Ok(types)
}
