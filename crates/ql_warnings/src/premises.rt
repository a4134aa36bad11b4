// Premises: what is on the left of `=>`.
ghost use Rattle.std.specs.Prelude.{◌≡◌, ◌≢◌, ◌<◌, ◌^◌, ℕ, IfOk, List, OnOk, Some, length, slice_get, true};
ghost use Rattle.std.specs.List.{All};
ghost use Rattle.ql_lang.specs.Formulas.{Statement, statement_of};
ghost use Rattle.ql_warnings.specs.Known.{Entails, IsPartOf};
ghost use Rattle.ql_warnings.specs.Kept.{PremiseKept, PremisesKept};
ghost use Rattle.ql_warnings.specs.Warnings.{IsOfPremise, IsOfPremises};
ghost use Rattle.ql_lang.specs.declared.formula.OpChoice.{OpChoice};
ghost use Rattle.ql_lang.specs.declared.program.Program.{Program};
ghost use Rattle.ql_ground.specs.declared.goal.Goal.{Goal};
ghost use Rattle.ql_warnings.specs.declared.known.Known.{Known};
ghost use Rattle.ql_warnings.specs.Premises.{IsNever, IsUnneeded};

use crate::always::with_parts;
use crate::clash::{Scene, first_clash, known_at};
use crate::known::{Known, gives};
use crate::place::place_in;
use crate::warning::{Warning, push_all};
use ql_base::NoMemory;
use ql_lang::Body;
use std::alloc::Global;

/// The warnings of each premise of a contract.
pub(crate) fn premises(
    alloc: Global,
    source: &[u8],
    scene: Scene,
    body: &Body,
) -> Result<Vec<Warning>, NoMemory>
    requires { length source.now < 2 ^ 32 }
    ensures { IfOk result
        (λ found. All (IsOfPremises source.now scene.entry.program.now.program scene.entry.goal
        scene.entry.vars.now (statement_of body.now)) found.items) }
{
    let mut found = Vec::new(alloc);
    push_premises(alloc, &mut found, source, scene, body)?;
    Ok(found)
}

fn push_premises(
    alloc: Global,
    out: &mut Vec<Warning>,
    source: &[u8],
    scene: Scene,
    body: &Body,
) -> Result<(), NoMemory>
    requires { length source.now < 2 ^ 32 }
    ensures { OnOk result
        (PremisesKept source.now scene.entry.program.now.program scene.entry.goal
        scene.entry.vars.now (statement_of body.now) out.old.items out.new.items) }
{
    match body {
        Body::And(left, right) => {
            push_premises(alloc, out, source, scene, left)?;
            push_premises(alloc, out, source, scene, right)
        }
        Body::Implies(left, right) => {
            let found = of_premise(alloc, source, scene, left)?;
            push_all(out, &found)?;
            push_premises(alloc, out, source, scene, right)
        }
        _ => Ok(()),
    }
}

// The warnings of one premise.
fn of_premise(
    alloc: Global,
    source: &[u8],
    scene: Scene,
    premise: &Body,
) -> Result<Vec<Warning>, NoMemory>
    requires { length source.now < 2 ^ 32 }
    ensures { IfOk result
        (λ found. All (IsOfPremise source.now scene.entry.program.now.program scene.entry.goal
        scene.entry.vars.now (statement_of premise.now)) found.items) }
{
    let known = with_parts(alloc, &[], premise)?;
    match first_clash(scene, &known) {
        Some(clash) => of_clash(alloc, source, clash.at),
        None => of_parts(alloc, source, &known),
    }
}

fn of_clash(alloc: Global, source: &[u8], at: u32) -> Result<Vec<Warning>, NoMemory>
    requires { length source.now < 2 ^ 32 }
    ensures { IfOk result
        (λ found. (p : Program) (g : Goal) (vars : List OpChoice) (premise : Statement)
        → IsNever p g vars premise at
        → All (IsOfPremise source.now p g vars premise) found.items) }
{
    let mut found = Vec::new(alloc);
    if let Some(place) = place_in(source, at) {
        found.push(Warning::NeverApplies(place))?;
    }
    Ok(found)
}

// The relations that others imply.
fn of_parts(alloc: Global, source: &[u8], known: &[Known]) -> Result<Vec<Warning>, NoMemory>
    requires { length source.now < 2 ^ 32 }
    ensures { IfOk result
        (λ found. (p : Program) (g : Goal) (vars : List OpChoice) (premise : Statement)
        → All (IsPartOf premise) known.now
        → All (IsOfPremise source.now p g vars premise) found.items) }
{
    let mut found = Vec::new(alloc);
    for k in 0..known.len() {
        push_part(&mut found, source, known, k)?;
    }
    Ok(found)
}

fn push_part(
    found: &mut Vec<Warning>,
    source: &[u8],
    known: &[Known],
    k: usize,
) -> Result<(), NoMemory>
    requires few { length source.now < 2 ^ 32 }
    requires there { k < length known.now }
    ensures { OnOk result
        ((p : Program) (g : Goal) (vars : List OpChoice) (premise : Statement)
        → All (IsPartOf premise) known.now
        → PremiseKept source.now p g vars premise found.old.items found.new.items) }
{
    let part = known_at(known, k);
    if !is_unneeded(known, part) {
        return Ok(());
    }
    push_place(found, source, part)?;
    Ok(())
}

fn push_place(found: &mut Vec<Warning>, source: &[u8], part: Known) -> Result<(), NoMemory>
    requires { length source.now < 2 ^ 32 }
    ensures { OnOk result
        ((p : Program) (g : Goal) (vars : List OpChoice) (premise : Statement)
        → IsUnneeded p g vars premise part.at
        → PremiseKept source.now p g vars premise found.old.items found.new.items) }
{
    if let Some(place) = place_in(source, part.at) {
        found.push(Warning::Unneeded(place))?;
    }
    Ok(())
}

// Whether another relation implies this one. Of two that imply each other, it is the later one.
fn is_unneeded(known: &[Known], part: Known) -> bool
    ensures { result ≡ true → (k : ℕ) × (other : Known) × (slice_get known.now k ≡ Some other)
        × (other.at ≢ part.at) × Entails other part }
{
    for k in 0..known.len() {
        let other = known[k];
        if other.at != part.at && gives(other, part) && is_kept(other, part) {
            return true;
        }
    }
    false
}

fn is_kept(other: Known, part: Known) -> bool {
    other.at < part.at || !gives(part, other)
}
