ghost use Rattle.std.specs.Prelude.{◌≡◌, ◌<◌, ◌≤◌, ◌^◌, ◌++◌, ◌∷◌, [], IfOk, IfErr, OnOk, OnErr, map, take, length, None};
ghost use Rattle.ql_base.specs.Numbering.{with_name};
ghost use Rattle.ql_lang.specs.Formulas.{InOneTxn, Related, resolved_of, statement_of};
ghost use Rattle.ql_lang.specs.Trees.{proposition_of, relation_of, sentence_of};
ghost use Rattle.ql_typing.specs.Faults.{IsRefusal, ReportsFirst, names_met};
ghost use Rattle.ql_typing.specs.ContractFaults.{contract_faults, var_names};
ghost use Rattle.ql_typing.specs.Resolved.{choice_of, number_in, ops_met, resolved_in, statement_in, term_of, with_numbers};

use crate::contract::check_contract;
use crate::fault::TypeFault;
use crate::named::Named;
use crate::word_set::WordSet;
use ql_base::{IdSet, Names, NoMemory, Word};
use ql_lang::{
    Body, Choices, Contract, Formula, Name, OpChoice, Point, Prop, Rel, Term, Terms, Var,
};
use std::alloc::Global;

/// The formula of a contract. An operation's number is its index in `ops`, to which new ones are appended.
pub fn resolve(
    alloc: Global,
    contract: &Contract,
    ops: &mut Names,
    for_txn: bool,
) -> Result<Formula, TypeFault>
    requires { length (ops_met ops.old contract.now.vars) < 2 ^ 32 }
    ensures typed { OnOk result (contract_faults None for_txn (sentence_of contract.now) ≡ []) }
    ensures numbered { OnOk result (ops.new ≡ ops_met ops.old contract.now.vars) }
    ensures formula { IfOk result
        (λ formula. resolved_of formula ≡ resolved_in ops.new (sentence_of contract.now)) }
    ensures refused { IfErr result
        (IsRefusal (contract_faults None for_txn (sentence_of contract.now))) }
    ensures first { IfErr result
        (ReportsFirst (contract_faults None for_txn (sentence_of contract.now))) }
    ensures kept { OnErr result (ops.new ≡ ops.old) }
{
    let mut vars = WordSet::new(alloc);
    resolve_with(alloc, contract, &mut vars, ops, for_txn)
}

/// The same, where the variables of the contract are put into `vars`.
#[tactic(auto, unfolding(crate::specs::Faults::IsRefusal, crate::specs::Faults::ReportsFirst))]
fn resolve_with(
    alloc: Global,
    contract: &Contract,
    vars: &mut WordSet,
    ops: &mut Names,
    for_txn: bool,
) -> Result<Formula, TypeFault>
    requires fresh { vars.old ≡ [] }
    requires room { length (ops_met ops.old contract.now.vars) < 2 ^ 32 }
    ensures typed { OnOk result (contract_faults None for_txn (sentence_of contract.now) ≡ []) }
    ensures numbered { OnOk result (ops.new ≡ ops_met ops.old contract.now.vars) }
    ensures formula { IfOk result
        (λ formula. resolved_of formula ≡ resolved_in ops.new (sentence_of contract.now)) }
    ensures refused { IfErr result
        (IsRefusal (contract_faults None for_txn (sentence_of contract.now))) }
    ensures first { IfErr result
        (ReportsFirst (contract_faults None for_txn (sentence_of contract.now))) }
    ensures kept { OnErr result (ops.new ≡ ops.old) }
{
    let Ok(fault) = check_contract(alloc, contract, None, for_txn, vars) else {
        return Err(TypeFault::NoMemory);
    };
    match fault {
        Some(fault) => Err(fault),
        None => match number_or_undo(alloc, contract, vars, ops) {
            Ok(formula) => Ok(formula),
            Err(NoMemory) => Err(TypeFault::NoMemory),
        },
    }
}

/// Adds the operations of a contract to `ops` and builds its formula, or leaves `ops` as it was.
fn number_or_undo(
    alloc: Global,
    contract: &Contract,
    vars: &WordSet,
    ops: &mut Names,
) -> Result<Formula, NoMemory>
    requires vars { vars.now ≡ names_met [] (var_names contract.now.vars) }
    requires few { length contract.now.vars ≤ 5 }
    requires room { length (ops_met ops.old contract.now.vars) < 2 ^ 32 }
    ensures numbered { OnOk result (ops.new ≡ ops_met ops.old contract.now.vars) }
    ensures formula { IfOk result
        (λ formula. resolved_of formula ≡ resolved_in ops.new (sentence_of contract.now)) }
    ensures kept { OnErr result (ops.new ≡ ops.old) }
{
    let before = ops.len();
    match number_and_build(alloc, contract, vars, ops) {
        Ok(formula) => Ok(formula),
        Err(NoMemory) => {
            ops.truncate(before);
            Err(NoMemory)
        }
    }
}

/// Adds the operations of a contract to `ops`, and builds its formula.
fn number_and_build(
    alloc: Global,
    contract: &Contract,
    vars: &WordSet,
    ops: &mut Names,
) -> Result<Formula, NoMemory>
    requires vars { vars.now ≡ names_met [] (var_names contract.now.vars) }
    requires few { length contract.now.vars ≤ 5 }
    requires room { length (ops_met ops.old contract.now.vars) < 2 ^ 32 }
    ensures numbered { OnOk result (ops.new ≡ ops_met ops.old contract.now.vars) }
    ensures formula { IfOk result
        (λ formula. resolved_of formula ≡ resolved_in ops.new (sentence_of contract.now)) }
    ensures kept { take (length ops.old) ops.new ≡ ops.old }
{
    number_all(contract.vars.items(), ops)?;
    build_formula(alloc, contract, vars, ops)
}

/// Adds the operations of variables to `ops`, one after another.
fn number_all(vars: &[Var], ops: &mut Names) -> Result<(), NoMemory>
    requires { length (ops_met ops.old vars.now) < 2 ^ 32 }
    ensures numbered { OnOk result (ops.new ≡ ops_met ops.old vars.now) }
    ensures kept { take (length ops.old) ops.new ≡ ops.old }
{
    for var in vars {
        number_each(var.ops.items(), ops)?;
    }
    Ok(())
}

/// Adds the names of items to `ops`, one after another.
pub(crate) fn number_each<T: Named>(items: &[T], ops: &mut Names) -> Result<(), NoMemory>
    requires { length (names_met ops.old (map T.named items.now)) < 2 ^ 32 }
    ensures numbered { OnOk result (ops.new ≡ names_met ops.old (map T.named items.now)) }
    ensures kept { take (length ops.old) ops.new ≡ ops.old }
{
    for item in items {
        put_in(ops, &item.name().word)?;
    }
    Ok(())
}

/// Adds a name unless it is there.
fn put_in(names: &mut Names, word: &Word) -> Result<(), NoMemory>
    requires { length (with_name names.old word.now) < 2 ^ 32 }
    ensures names { OnOk result (names.new ≡ with_name names.old word.now) }
    ensures kept { OnErr result (names.new ≡ names.old) }
{
    if names.find(word.bytes()).is_none() {
        names.number(word.bytes())?;
    }
    Ok(())
}

/// The formula of a contract, by the indices of its variables and the numbers of operations.
#[tactic(auto, unfolding(crate::specs::Resolved::resolved_in))]
pub(crate) fn build_formula(
    alloc: Global,
    contract: &Contract,
    vars: &WordSet,
    ops: &Names,
) -> Result<Formula, NoMemory>
    requires vars { vars.now ≡ names_met [] (var_names contract.now.vars) }
    requires few { length contract.now.vars ≤ 5 }
    ensures { IfOk result
        (λ formula. resolved_of formula ≡ resolved_in ops.now (sentence_of contract.now)) }
{
    let choices = build_choices(alloc, contract.vars.items(), ops)?;
    let body = build_body(alloc, &contract.body, vars)?;
    Ok(Formula {
        vars: Choices::of(choices),
        body,
    })
}

/// A name's index, or 0 if it isn't there.
fn number_of(names: &Names, word: &Word) -> u32
    ensures { result ≡ number_in names.now word.now }
{
    names.find(word.bytes()).unwrap_or(0)
}

fn build_choices(alloc: Global, vars: &[Var], ops: &Names) -> Result<Vec<OpChoice>, NoMemory>
    ensures { IfOk result (λ choices. choices.items ≡ map (λ v. choice_of ops.now v.ops) vars.now) }
{
    let mut choices = Vec::with_capacity(alloc, vars.len())?;
    for var in vars {
        push_choice(alloc, var.ops.items(), ops, &mut choices)?;
    }
    Ok(choices)
}

fn push_choice(
    alloc: Global,
    names: &[Name],
    ops: &Names,
    choices: &mut Vec<OpChoice>,
) -> Result<(), NoMemory>
    ensures { OnOk result
        (choices.new.items ≡ choices.old.items ++ choice_of ops.now names.now ∷ []) }
{
    let choice = build_choice(alloc, names, ops)?;
    Ok(choices.push(choice)?)
}

fn build_choice(alloc: Global, names: &[Name], ops: &Names) -> Result<OpChoice, NoMemory>
    ensures { IfOk result (λ choice. choice ≡ choice_of ops.now names.now) }
{
    if names.is_empty() {
        return Ok(OpChoice::Any);
    }
    let ids = build_ids(alloc, names, ops)?;
    Ok(OpChoice::OneOf(ids))
}

fn build_ids(alloc: Global, names: &[Name], ops: &Names) -> Result<IdSet, NoMemory>
    ensures { IfOk result (λ ids. ids ≡ with_numbers ops.now [] names.now) }
{
    let mut ids = IdSet::new(alloc);
    for name in names {
        ids.insert(number_of(ops, &name.word))?;
    }
    Ok(ids)
}

/// The index of a variable, or 0 if it isn't there.
fn index_of(vars: &WordSet, word: &Word) -> u32
    requires { length vars.now ≤ 5 }
    ensures { result ≡ number_in vars.now word.now }
{
    match vars.index_of(word) {
        Some(index) => index as u32,
        None => 0,
    }
}

#[tactic(auto, unfolding(crate::specs::Resolved::term_of))]
fn build_term(point: &Point, vars: &WordSet) -> Term
    requires { length vars.now ≤ 5 }
    ensures { result ≡ term_of vars.now point.now }
{
    match point {
        Point::CurAt(_) => Term::Cur,
        Point::Named(name) => Term::Var(index_of(vars, &name.word)),
    }
}

fn build_terms(alloc: Global, points: &[Point], vars: &WordSet) -> Result<Terms, NoMemory>
    requires { length vars.now ≤ 5 }
    ensures { IfOk result (λ terms. terms ≡ map (term_of vars.now) points.now) }
{
    let mut terms = Vec::with_capacity(alloc, points.len())?;
    for point in points {
        terms.push(build_term(point, vars))?;
    }
    Ok(Terms::of(terms))
}

/// A copy of a relation.
#[cycle(relation)]
fn copy_rel(alloc: Global, rel: &Rel) -> Result<Rel, NoMemory>
    ensures { IfOk result (λ copy. relation_of copy ≡ relation_of rel.now) }
{
    match rel {
        Rel::Base(name, at) => Ok(Rel::Base(*name, *at)),
        Rel::Union(left, right) => {
            let left = copy_boxed(alloc, left)?;
            let right = copy_boxed(alloc, right)?;
            Ok(Rel::Union(left, right))
        }
        Rel::Inter(left, right) => {
            let left = copy_boxed(alloc, left)?;
            let right = copy_boxed(alloc, right)?;
            Ok(Rel::Inter(left, right))
        }
    }
}

/// A copy of an operand of a relation.
#[cycle(relation)]
fn copy_boxed(alloc: Global, rel: &Rel) -> Result<Box<Rel>, NoMemory>
    ensures { IfOk result (λ copy. relation_of copy.value ≡ relation_of rel.now) }
{
    let copy = copy_rel(alloc, rel)?;
    Ok(Box::new(alloc, copy)?)
}

/// What a contract says, by the indices of its variables.
#[cycle(body)]
#[tactic(auto, unfolding(crate::specs::Resolved::statement_in))]
fn build_body(alloc: Global, body: &Prop, vars: &WordSet) -> Result<Body, NoMemory>
    requires { length vars.now ≤ 5 }
    ensures { IfOk result
        (λ statement. statement_of statement ≡ statement_in vars.now (proposition_of body.now)) }
{
    match body {
        Prop::True => Ok(Body::True),
        Prop::Apply(rel, left, right) => build_application(alloc, rel, left, right, vars),
        Prop::And(left, right) => {
            let left = build_boxed(alloc, left, vars)?;
            let right = build_boxed(alloc, right, vars)?;
            Ok(Body::And(left, right))
        }
        Prop::Or(left, right) => {
            let left = build_boxed(alloc, left, vars)?;
            let right = build_boxed(alloc, right, vars)?;
            Ok(Body::Or(left, right))
        }
        Prop::Implies(left, right) => {
            let left = build_boxed(alloc, left, vars)?;
            let right = build_boxed(alloc, right, vars)?;
            Ok(Body::Implies(left, right))
        }
        Prop::Txn(_, members, others) => {
            build_membership(alloc, members.items(), others.items(), vars)
        }
    }
}

/// An operand of a contract's body.
#[cycle(body)]
fn build_boxed(alloc: Global, body: &Prop, vars: &WordSet) -> Result<Box<Body>, NoMemory>
    requires { length vars.now ≤ 5 }
    ensures { IfOk result
        (λ built. statement_of built.value ≡ statement_in vars.now (proposition_of body.now)) }
{
    let built = build_body(alloc, body, vars)?;
    Ok(Box::new(alloc, built)?)
}

/// A relation between two terms.
fn build_application(
    alloc: Global,
    rel: &Rel,
    left: &Point,
    right: &Point,
    vars: &WordSet,
) -> Result<Body, NoMemory>
    requires { length vars.now ≤ 5 }
    ensures { IfOk result
        (λ built. statement_of built
        ≡ Related (relation_of rel.now) (term_of vars.now left.now) (term_of vars.now right.now)) }
{
    let rel = copy_rel(alloc, rel)?;
    Ok(Body::Apply(rel, build_term(left, vars), build_term(right, vars)))
}

/// That terms are in one transaction, and others together in another.
fn build_membership(
    alloc: Global,
    members: &[Point],
    others: &[Point],
    vars: &WordSet,
) -> Result<Body, NoMemory>
    requires { length vars.now ≤ 5 }
    ensures { IfOk result
        (λ built. statement_of built
        ≡ InOneTxn (map (term_of vars.now) members.now) (map (term_of vars.now) others.now)) }
{
    let members = build_terms(alloc, members, vars)?;
    let others = build_terms(alloc, others, vars)?;
    Ok(Body::Txn(members, others))
}
