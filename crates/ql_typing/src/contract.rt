ghost use Rattle.std.specs.Prelude.{◌≡◌, [], IfOk, OnOk, option_copied};
ghost use Rattle.ql_lang.specs.Trees.{proposition_of, relation_of, sentence_of};
ghost use Rattle.ql_typing.specs.Faults.{each, first_fault, names_met};
ghost use Rattle.ql_typing.specs.ContractFaults.{choice_faults, contract_faults, extra_var, is_closure, op_faults, point_faults, prop_faults, rel_faults, var_names};

use crate::fault::{TypeFault, first};
use crate::limits::past_limit;
use crate::names::{meet, repeat_fault};
use crate::word_set::WordSet;
use ql_base::{MAX_VARIABLES, NoMemory};
use ql_lang::{Contract, Name, Point, Prop, Rel, RelName, Var};
use std::alloc::Global;

/// Whether a relation is the closure of visibility and session order, on one object or over all.
#[tactic(auto, unfolding(crate::specs::ContractFaults::is_closure))]
fn closes(name: RelName) -> bool
    ensures { result ≡ is_closure name }
{
    matches!(name, RelName::Hb | RelName::Hbo)
}

/// The fault of the first closure of a relation in a transaction's contract.
#[tactic(auto, unfolding(crate::specs::ContractFaults::rel_faults, crate::specs::Faults::first_fault, crate::specs::Faults::earlier), using(crate::proofs::FirstFault::first_append))]
fn rel_fault(rel: &Rel, for_txn: bool) -> Option<TypeFault>
    ensures { result ≡ first_fault (rel_faults for_txn (relation_of rel.now)) }
{
    match rel {
        Rel::Base(name, at) => {
            if for_txn && closes(*name) {
                Some(TypeFault::TxnClosure(*at))
            } else {
                None
            }
        }
        Rel::Union(left, right) | Rel::Inter(left, right) => {
            first(rel_fault(left, for_txn), rel_fault(right, for_txn))
        }
    }
}

/// The fault of a term that is neither one of the variables nor an allowed current effect.
#[tactic(auto, unfolding(crate::specs::ContractFaults::point_faults, crate::specs::Faults::first_fault, crate::specs::Faults::earlier))]
fn point_fault(point: &Point, vars: &WordSet, for_txn: bool) -> Option<TypeFault>
    ensures { result ≡ first_fault (point_faults for_txn vars.now point.now) }
{
    match point {
        Point::CurAt(at) => {
            if for_txn {
                Some(TypeFault::Unknown(*at))
            } else {
                None
            }
        }
        Point::Named(name) => {
            if vars.has(&name.word) {
                None
            } else {
                Some(TypeFault::Unknown(name.at))
            }
        }
    }
}

fn points_fault(points: &[Point], vars: &WordSet, for_txn: bool) -> Option<TypeFault>
    ensures { result ≡ first_fault (each (point_faults for_txn vars.now) points.now) }
{
    let mut fault = None;
    for point in points {
        fault = first(fault, point_fault(point, vars, for_txn));
    }
    fault
}

/// The first fault of a contract's body, with the variables in scope.
#[tactic(auto, unfolding(crate::specs::ContractFaults::prop_faults, crate::specs::Faults::first_fault, crate::specs::Faults::earlier), using(crate::proofs::FirstFault::first_append))]
fn prop_fault(body: &Prop, vars: &WordSet, for_txn: bool) -> Option<TypeFault>
    ensures { result ≡ first_fault (prop_faults for_txn vars.now (proposition_of body.now)) }
{
    match body {
        Prop::True => None,
        Prop::Apply(rel, left, right) => first(
            rel_fault(rel, for_txn),
            first(
                point_fault(left, vars, for_txn),
                point_fault(right, vars, for_txn),
            ),
        ),
        Prop::And(left, right) | Prop::Or(left, right) | Prop::Implies(left, right) => first(
            prop_fault(left, vars, for_txn),
            prop_fault(right, vars, for_txn),
        ),
        Prop::Txn(at, some, others) => {
            let atom = if for_txn {
                None
            } else {
                Some(TypeFault::TxnAtom(*at))
            };
            first(
                atom,
                first(
                    points_fault(some.items(), vars, for_txn),
                    points_fault(others.items(), vars, for_txn),
                ),
            )
        }
    }
}

/// The fault of an operation that isn't known, if only those of a list are.
#[tactic(auto, unfolding(crate::specs::ContractFaults::op_faults, crate::specs::Faults::first_fault, crate::specs::Faults::earlier))]
fn op_fault(name: &Name, known: Option<&WordSet>) -> Option<TypeFault>
    ensures { result ≡ first_fault (op_faults (option_copied known.entry) name.now) }
{
    match known {
        Some(ops) if !ops.has(&name.word) => Some(TypeFault::Unknown(name.at)),
        _ => None,
    }
}

pub(crate) fn ops_fault(names: &[Name], known: Option<&WordSet>) -> Option<TypeFault>
    ensures { result ≡ first_fault (each (op_faults (option_copied known.entry)) names.now) }
{
    let mut fault = None;
    for name in names {
        fault = first(fault, op_fault(name, known));
    }
    fault
}

/// The first fault of the operations that a variable names.
fn choice_fault(
    alloc: Global,
    var: &Var,
    known: Option<&WordSet>,
) -> Result<Option<TypeFault>, NoMemory>
    ensures { IfOk result
        (λ fault. fault ≡ first_fault (choice_faults (option_copied known.entry) var.now)) }
{
    let ops = var.ops.items();
    let repeated = repeat_fault(alloc, ops)?;
    Ok(first(repeated, ops_fault(ops, known)))
}

fn choices_fault(
    alloc: Global,
    vars: &[Var],
    known: Option<&WordSet>,
) -> Result<Option<TypeFault>, NoMemory>
    ensures { IfOk result
        (λ fault. fault ≡ first_fault (each (choice_faults (option_copied known.entry)) vars.now)) }
{
    let mut fault = None;
    for var in vars {
        let choice = choice_fault(alloc, var, known)?;
        fault = first(fault, choice);
    }
    Ok(fault)
}

/// The fault of the first of the variables above the limit.
fn extra_fault(vars: &[Var]) -> Option<TypeFault>
    ensures { result ≡ first_fault (each extra_var (var_names vars.now)) }
{
    let mut fault = None;
    for var in vars {
        fault = first(fault, Some(TypeFault::Variables(var.name.at)));
    }
    fault
}

/// The first fault of a contract. If `known` is given, its operations have to be among those.
pub(crate) fn contract_fault(
    alloc: Global,
    contract: &Contract,
    known: Option<&WordSet>,
    for_txn: bool,
) -> Result<Option<TypeFault>, NoMemory>
    ensures { IfOk result
        (λ fault. fault
        ≡ first_fault (contract_faults (option_copied known.entry) for_txn
        (sentence_of contract.now))) }
{
    let mut vars = WordSet::new(alloc);
    check_contract(alloc, contract, known, for_txn, &mut vars)
}

/// The first fault of a contract, whose variables are put into `vars` in their order, without repeats.
pub(crate) fn check_contract(
    alloc: Global,
    contract: &Contract,
    known: Option<&WordSet>,
    for_txn: bool,
    vars: &mut WordSet,
) -> Result<Option<TypeFault>, NoMemory>
    requires { vars.old ≡ [] }
    ensures vars { OnOk result (vars.new ≡ names_met [] (var_names contract.now.vars)) }
    ensures fault { IfOk result
        (λ fault. fault
        ≡ first_fault (contract_faults (option_copied known.entry) for_txn
        (sentence_of contract.now))) }
{
    let named = contract.vars.items();
    let repeated = meet(vars, named)?;
    let choice = choices_fault(alloc, named, known)?;
    let body = prop_fault(&contract.body, vars, for_txn);
    let extra = extra_fault(past_limit(named, MAX_VARIABLES));
    Ok(first(repeated, first(extra, first(choice, body))))
}
