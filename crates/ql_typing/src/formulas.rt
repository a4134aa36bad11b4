ghost use Rattle.std.specs.Prelude.{◌≡◌, ◌≤◌, ◌++◌, ◌∷◌, [], IfOk, OnOk, Some, false, length, map};
ghost use Rattle.ql_lang.specs.Formulas.{resolved_of};
ghost use Rattle.ql_lang.specs.Trees.{sentence_of};
ghost use Rattle.ql_typing.specs.ContractFaults.{contract_faults};
ghost use Rattle.ql_typing.specs.Faults.{each};
ghost use Rattle.ql_typing.specs.Operations.{all_ops, op_contract, txn_contract};
ghost use Rattle.ql_typing.specs.Programs.{txn_faults, type_faults};
ghost use Rattle.ql_typing.specs.Resolved.{resolved_in};

use crate::build::build_formula;
use crate::names::meet;
use crate::word_set::WordSet;
use ql_base::{Names, NoMemory};
use ql_lang::{Contract, Formula, OpDecl, TxnDecl, TypeDecl};
use std::alloc::Global;

/// A contract with its names resolved, where operations are numbered by their indices in `ops`.
fn formula_of(alloc: Global, contract: &Contract, ops: &Names) -> Result<Formula, NoMemory>
    requires { length contract.now.vars ≤ 5 }
    ensures { IfOk result
        (λ formula. resolved_of formula ≡ resolved_in ops.now (sentence_of contract.now)) }
{
    let mut names = WordSet::new(alloc);
    meet(&mut names, contract.vars.items())?;
    build_formula(alloc, contract, &names, ops)
}

/// Appends a contract with its names resolved to others.
fn push_formula(
    alloc: Global,
    contract: &Contract,
    ops: &Names,
    formulas: &mut Vec<Formula>,
) -> Result<(), NoMemory>
    requires { length contract.now.vars ≤ 5 }
    ensures { OnOk result
        (map resolved_of formulas.new.items ≡ map resolved_of formulas.old.items
        ++ resolved_in ops.now (sentence_of contract.now) ∷ []) }
{
    let formula = formula_of(alloc, contract, ops)?;
    Ok(formulas.push(formula)?)
}

/// The contracts of all operations, in order.
pub(crate) fn formulas_of_ops(
    alloc: Global,
    types: &[TypeDecl],
    ops: &Names,
) -> Result<Vec<Formula>, NoMemory>
    requires { each (type_faults ops.now) types.now ≡ [] }
    ensures { IfOk result
        (λ formulas. map resolved_of formulas.items
        ≡ map (op_contract ops.now) (all_ops types.now)) }
{
    let mut formulas = Vec::new(alloc);
    for declared in types {
        put_own(alloc, declared.ops.items(), ops, &mut formulas)?;
    }
    Ok(formulas)
}

/// Appends the contracts of a type's operations to others.
fn put_own(
    alloc: Global,
    own: &[OpDecl],
    ops: &Names,
    formulas: &mut Vec<Formula>,
) -> Result<(), NoMemory>
    requires { each (λ o. contract_faults (Some ops.now) false (sentence_of o.contract)) own.now
        ≡ [] }
    ensures { OnOk result
        (map resolved_of formulas.new.items ≡ map resolved_of formulas.old.items
        ++ map (op_contract ops.now) own.now) }
{
    for op in own {
        push_formula(alloc, &op.contract, ops, formulas)?;
    }
    Ok(())
}

/// The contracts of all transactions, in order.
pub(crate) fn formulas_of_txns(
    alloc: Global,
    txns: &[TxnDecl],
    ops: &Names,
) -> Result<Vec<Formula>, NoMemory>
    requires { each (txn_faults ops.now) txns.now ≡ [] }
    ensures { IfOk result
        (λ formulas. map resolved_of formulas.items ≡ map (txn_contract ops.now) txns.now) }
{
    let mut formulas = Vec::with_capacity(alloc, txns.len())?;
    for declared in txns {
        push_formula(alloc, &declared.contract, ops, &mut formulas)?;
    }
    Ok(formulas)
}
