ghost use Rattle.std.specs.Prelude.{◌≡◌, ◌≢◌, [], List, ℕ, false, None, Some, IfOk, map};
ghost use Rattle.std.specs.List.{list_any};
ghost use Rattle.ql_lang.specs.Trees.{proposition_of, sentence_of};
ghost use Rattle.ql_typing.specs.Faults.{each, names_met, repeats};
ghost use Rattle.ql_typing.specs.ContractFaults.{choice_faults, point_faults, prop_faults, var_names};
ghost use Rattle.ql_holds_files.specs.ContractLine.{sentence_faults, is_repeat, is_txn_atom, is_unknown_name, lowest_rule, rule_of_bound};

use crate::rules::HoldsRule;
use ql_base::NoMemory;
use ql_lang::{Contract, Name, Point, Prop, Var};
use ql_typing::WordSet;
use std::alloc::Global;

/// The lowest rule that a contract with faults breaks.
pub(crate) fn lowest_rule(alloc: Global, contract: &Contract) -> Result<HoldsRule, NoMemory>
    requires { sentence_faults (sentence_of contract.now) ≢ [] }
    ensures { IfOk result
        (λ rule. lowest_rule (sentence_faults (sentence_of contract.now)) ≡ Some rule) }
{
    let met = meet_variables(alloc, contract.vars.items())?;
    if is_open(&contract.body, &met.names) {
        Ok(HoldsRule::Unknown)
    } else {
        rule_of_bound(alloc, contract, met.twice)
    }
}

// The lowest rule that a contract breaks which binds each variable that it uses. `twice` says whether a variable
// repeats another.
fn rule_of_bound(alloc: Global, contract: &Contract, twice: bool) -> Result<HoldsRule, NoMemory>
    ensures { IfOk result (λ rule. rule ≡ rule_of_bound twice (sentence_of contract.now)) }
{
    if twice {
        return Ok(HoldsRule::Twice);
    }
    if repeats_an_operation(alloc, contract.vars.items())? {
        return Ok(HoldsRule::Twice);
    }
    if speaks_of_txn(&contract.body) {
        Ok(HoldsRule::TxnAtom)
    } else {
        Ok(HoldsRule::Variables)
    }
}

// The distinct names of variables, and whether one occurs twice.
fn meet_variables(alloc: Global, vars: &[Var]) -> Result<Met, NoMemory>
    ensures names { IfOk result (λ met. met.names ≡ names_met [] (var_names vars.now)) }
    ensures twice { IfOk result
        (λ met. met.twice ≡ list_any is_repeat (repeats [] (var_names vars.now))) }
{
    let names = names_of(alloc, vars)?;
    meet(alloc, names.as_slice())
}

// The names of variables, in order.
fn names_of(alloc: Global, vars: &[Var]) -> Result<Vec<Name>, NoMemory>
    ensures { IfOk result (λ names. names.items ≡ var_names vars.now) }
{
    Ok(vars.iter().map(|var| var.name).collect(alloc)?)
}

// Distinct names in the order of their first occurrence, and whether one occurs twice.
#[derive(Drop)]
struct Met {
    names: WordSet,
    twice: bool,
}

// Collects the distinct ones of these names.
#[tactic(auto, unfolding(ql_typing::specs::Faults::names_met, ql_typing::specs::Faults::repeats))]
fn meet(alloc: Global, list: &[Name]) -> Result<Met, NoMemory>
    ensures names { IfOk result (λ met. met.names ≡ names_met [] list.now) }
    ensures twice { IfOk result (λ met. met.twice ≡ list_any is_repeat (repeats [] list.now)) }
{
    let mut names = WordSet::new(alloc);
    let mut twice = false;
    let mut rest = list;
    while let Some((name, others)) = rest.split_first() {
        let is_new = names.add(&name.word)?;
        twice = twice || !is_new;
        rest = others;
    }
    Ok(Met { names, twice })
}

// Whether one of the variables names an operation twice.
fn repeats_an_operation(alloc: Global, vars: &[Var]) -> Result<bool, NoMemory>
    ensures { IfOk result
        (λ twice. twice ≡ list_any is_repeat (each (choice_faults None) vars.now)) }
{
    let mut rest = vars;
    while let Some((var, others)) = rest.split_first() {
        let met = meet(alloc, var.ops.items())?;
        if met.twice {
            return Ok(true);
        }
        rest = others;
    }
    Ok(false)
}

// Whether a term is a variable that the contract doesn't bind.
#[tactic(auto, unfolding(ql_typing::specs::ContractFaults::point_faults))]
fn is_unbound(point: &Point, vars: &WordSet) -> bool
    ensures { result ≡ list_any is_unknown_name (point_faults false vars.now point.now) }
{
    match point {
        Point::CurAt(_) => false,
        Point::Named(name) => !vars.has(&name.word),
    }
}

fn has_unbound(points: &[Point], vars: &WordSet) -> bool
    ensures { result ≡ list_any is_unknown_name (each (point_faults false vars.now) points.now) }
{
    let mut rest = points;
    while let Some((point, others)) = rest.split_first() {
        if is_unbound(point, vars) {
            return true;
        }
        rest = others;
    }
    false
}

// Whether a proposition uses a variable that the contract doesn't bind.
#[tactic(auto, unfolding(ql_typing::specs::ContractFaults::prop_faults), using(crate::proofs::ContractRules::unknown_application, crate::proofs::ContractRules::unknown_either))]
fn is_open(prop: &Prop, vars: &WordSet) -> bool
    ensures { result ≡ list_any is_unknown_name
        (prop_faults false vars.now (proposition_of prop.now)) }
{
    match prop {
        Prop::True => false,
        Prop::Apply(_, left, right) => is_unbound(left, vars) || is_unbound(right, vars),
        Prop::And(left, right) | Prop::Or(left, right) | Prop::Implies(left, right) => {
            is_open(left, vars) || is_open(right, vars)
        }
        Prop::Txn(_, members, others) => {
            has_unbound(members.items(), vars) || has_unbound(others.items(), vars)
        }
    }
}

// Whether a proposition uses transactions.
#[tactic(auto, unfolding(ql_typing::specs::ContractFaults::prop_faults), using(crate::proofs::ContractRules::txn_application, crate::proofs::ContractRules::txn_either))]
fn speaks_of_txn(prop: &Prop) -> bool
    ensures { (vars : List (List ℕ))
        → result ≡ list_any is_txn_atom (prop_faults false vars (proposition_of prop.now)) }
{
    match prop {
        Prop::True | Prop::Apply(_, _, _) => false,
        Prop::And(left, right) | Prop::Or(left, right) | Prop::Implies(left, right) => {
            speaks_of_txn(left) || speaks_of_txn(right)
        }
        Prop::Txn(_, _, _) => true,
    }
}
