// The facts that make a contract false.
ghost use Rattle.std.specs.Prelude.{IfOk, OnOk};
ghost use Rattle.std.specs.List.{All};
ghost use Rattle.ql_formula.specs.Tables.{IsTableOf};
ghost use Rattle.ql_warnings.specs.Facts.{IsTrueOf, KeepsAny, KeepsTrue};

use crate::claims::{Scene, holds, place_of};
use crate::fact::{Claim, Fact};
use ql_base::{EffId, NoMemory};
use ql_counter::Counter;
use ql_formula::Relations;
use ql_lang::{Body, Formula, Rel, Term};
use std::alloc::Global;

/// What makes a contract false in a countermodel: facts about its effects.
pub fn reasons(alloc: Global, formula: &Formula, c: &Counter) -> Result<Vec<Fact>, NoMemory>
    ensures { IfOk result (λ facts. All (IsTrueOf c.now.execution c.now.at) facts.items) }
{
    let relations = Relations::build(alloc, &c.execution)?;
    let scene = Scene {
        execution: &c.execution,
        relations: &relations,
        at: c.at,
        places: c.places.items(),
    };
    let mut facts = Vec::new(alloc);
    let _is_false = report(&mut facts, scene, &formula.body, false)?;
    Ok(facts)
}

// Appends facts by which the body has this value, if it has it; returns whether it does.
fn report(facts: &mut Vec<Fact>, scene: Scene, body: &Body, value: bool) -> Result<bool, NoMemory>
    requires { IsTableOf scene.relations.now scene.execution.now }
    ensures { OnOk result
        (KeepsTrue scene.entry.execution.now scene.entry.at facts.old.items facts.new.items) }
{
    let mark = facts.len();
    match body {
        Body::True => Ok(value),
        Body::Apply(relation, first, second) => {
            let (first, second) = (place_of(scene, *first), place_of(scene, *second));
            report_related(facts, scene, relation, (first, second), value)
        }
        Body::And(left, right) => {
            let reported = report(facts, scene, left, value)?;
            if is_settled(facts, mark, reported, value) {
                return Ok(reported);
            }
            report(facts, scene, right, value)
        }
        Body::Or(left, right) => {
            let reported = report(facts, scene, left, value)?;
            if is_settled(facts, mark, reported, !value) {
                return Ok(reported);
            }
            report(facts, scene, right, value)
        }
        Body::Implies(left, right) => {
            let reported = report(facts, scene, left, !value)?;
            if is_settled(facts, mark, reported, !value) {
                return Ok(reported);
            }
            report(facts, scene, right, value)
        }
        Body::Txn(members, others) => {
            report_txn(facts, scene, members.items(), others.items(), value)
        }
    }
}

// Whether the left of two parts settles if the body has the value. The value takes both parts if `both`, else one of
// them. If the right part has to be tried instead of the left, the facts of the left one are dropped.
fn is_settled(facts: &mut Vec<Fact>, mark: usize, reported: bool, both: bool) -> bool
    ensures { KeepsAny facts.old.items facts.new.items }
{
    if reported != both {
        return true;
    }
    if !reported {
        facts.truncate(mark);
    }
    false
}

fn report_related(
    facts: &mut Vec<Fact>,
    scene: Scene,
    relation: &Rel,
    pair: (EffId, EffId),
    value: bool,
) -> Result<bool, NoMemory>
    requires { IsTableOf scene.relations.now scene.execution.now }
    ensures { OnOk result
        (KeepsTrue scene.entry.execution.now scene.entry.at facts.old.items facts.new.items) }
{
    let mark = facts.len();
    match relation {
        Rel::Base(name, _) => {
            let claim = Claim::Related(*name, pair.0, pair.1);
            report_claim(facts, scene, claim, value)
        }
        Rel::Union(left, right) => {
            let reported = report_related(facts, scene, left, pair, value)?;
            if is_settled(facts, mark, reported, !value) {
                return Ok(reported);
            }
            report_related(facts, scene, right, pair, value)
        }
        Rel::Inter(left, right) => {
            let reported = report_related(facts, scene, left, pair, value)?;
            if is_settled(facts, mark, reported, value) {
                return Ok(reported);
            }
            report_related(facts, scene, right, pair, value)
        }
    }
}

fn report_claim(
    facts: &mut Vec<Fact>,
    scene: Scene,
    claim: Claim,
    value: bool,
) -> Result<bool, NoMemory>
    requires { IsTableOf scene.relations.now scene.execution.now }
    ensures { OnOk result
        (KeepsTrue scene.entry.execution.now scene.entry.at facts.old.items facts.new.items) }
{
    let is_so = holds(scene, claim) == value;
    if is_so {
        facts.push(Fact {
            claim,
            holds: value,
        })?;
    }
    Ok(is_so)
}

// The members are in the current transaction; the others aren't, and are in one transaction.
fn report_txn(
    facts: &mut Vec<Fact>,
    scene: Scene,
    members: &[Term],
    others: &[Term],
    value: bool,
) -> Result<bool, NoMemory>
    requires { IsTableOf scene.relations.now scene.execution.now }
    ensures { OnOk result
        (KeepsTrue scene.entry.execution.now scene.entry.at facts.old.items facts.new.items) }
{
    let mut asked = Vec::new(*facts.allocator());
    for member in members {
        asked.push(Fact {
            claim: Claim::Inside(place_of(scene, *member)),
            holds: true,
        })?;
    }
    for other in others {
        asked.push(Fact {
            claim: Claim::Inside(place_of(scene, *other)),
            holds: false,
        })?;
    }
    if let Some((first, rest)) = others.split_first() {
        for other in rest {
            asked.push(Fact {
                claim: Claim::OneTxn(place_of(scene, *first), place_of(scene, *other)),
                holds: true,
            })?;
        }
    }
    report_all(facts, scene, &asked, value)
}

// Appends that all of these hold, or for the value false the first that doesn't.
fn report_all(
    facts: &mut Vec<Fact>,
    scene: Scene,
    asked: &[Fact],
    value: bool,
) -> Result<bool, NoMemory>
    requires { IsTableOf scene.relations.now scene.execution.now }
    ensures { OnOk result
        (KeepsTrue scene.entry.execution.now scene.entry.at facts.old.items facts.new.items) }
{
    for fact in asked {
        if value {
            if !report_claim(facts, scene, fact.claim, fact.holds)? {
                return Ok(false);
            }
        } else if report_claim(facts, scene, fact.claim, !fact.holds)? {
            return Ok(true);
        }
    }
    Ok(value)
}
