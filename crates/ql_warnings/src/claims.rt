// Whether a claim holds in an execution.
ghost use Rattle.std.specs.Prelude.{◌≡◌};
ghost use Rattle.std.specs.Option.{option_copied};
ghost use Rattle.ql_exec.specs.Effects.{effect_at};
ghost use Rattle.ql_exec.specs.Relations.{sametxn};
ghost use Rattle.ql_formula.specs.Tables.{IsTableOf};
ghost use Rattle.ql_formula.specs.Truth.{place_of};
ghost use Rattle.ql_lang.specs.declared.formula.Term.TheVariants.{Var};
ghost use Rattle.ql_counter.specs.Countermodels.{numbers};
ghost use Rattle.ql_warnings.specs.Facts.{claim_true, current_at, inside_at};

use crate::fact::Claim;
use ql_base::EffId;
use ql_counter::At;
use ql_exec::{Effect, Execution};
use ql_formula::Relations;
use ql_lang::{Rel, Term};

/// An execution, where the contract is judged in it, and the effects of the contract's variables.
#[derive(Clone, Copy)]
pub(crate) struct Scene<'a> {
    pub(crate) execution: &'a Execution,
    pub(crate) relations: &'a Relations,
    pub(crate) at: At,
    pub(crate) places: &'a [EffId],
}

/// Whether a claim holds.
pub(crate) fn holds(scene: Scene, claim: Claim) -> bool
    requires { IsTableOf scene.relations.now scene.execution.now }
    ensures { result ≡ claim_true scene.entry.execution.now
        (inside_at scene.entry.execution.now scene.entry.at) claim }
{
    let effects = scene.execution.effects();
    match claim {
        Claim::Related(name, first, second) => {
            scene.relations.test(&Rel::Base(name, 0), first, second)
        }
        Claim::Inside(id) => is_inside(effects, scene.at, id),
        Claim::OneTxn(first, second) => is_one_txn(effects, first, second),
    }
}

/// The effect that a term stands for.
pub(crate) fn place_of(scene: Scene, term: Term) -> EffId
    ensures { result.0 ≡ place_of (numbers scene.entry.places.now) (current_at scene.entry.at) term }
{
    match term {
        Term::Cur => cur_of(scene.at),
        Term::Var(v) => place_at(scene.places, v as usize),
    }
}

fn cur_of(at: At) -> EffId
    ensures { result.0 ≡ current_at at }
{
    match at {
        At::Effect(id) => id,
        At::Run(_) => EffId(0),
    }
}

fn place_at(places: &[EffId], k: usize) -> EffId
    ensures { result.0 ≡ place_of (numbers places.now) 0 (Var k) }
{
    match places.get(k) {
        Some(id) => *id,
        None => EffId(0),
    }
}

fn is_inside(effects: &[Effect], at: At, id: EffId) -> bool
    ensures { result ≡ inside_at effects.now at id.0 }
{
    match (at, effect(effects, id)) {
        (At::Run(run), Some(effect)) => effect.member.is_in(run),
        _ => false,
    }
}

fn is_one_txn(effects: &[Effect], first: EffId, second: EffId) -> bool
    ensures { result ≡ sametxn effects.now first.0 second.0 }
{
    first.0 == second.0
        || match (effect(effects, first), effect(effects, second)) {
            (Some(one), Some(other)) => one.member.is_with(other.member),
            _ => false,
        }
}

fn effect(effects: &[Effect], id: EffId) -> Option<&Effect>
    ensures { option_copied result ≡ effect_at effects.now id.0 }
{
    if id.0 == 0 {
        None
    } else {
        effects.get(id.0 as usize - 1)
    }
}
