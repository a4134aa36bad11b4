ghost use Rattle.std.specs.Prelude.{◌≡◌, ◌≤◌, ◌-◌, length, take, drop, slice_index, false, true, not};
ghost use Rattle.std.specs.List.{list_all};
ghost use Rattle.std.specs.Option.{option_copied};
ghost use Rattle.ql_lang.specs.Formulas.{statement_of};
ghost use Rattle.ql_exec.specs.Effects.{effect_at};
ghost use Rattle.ql_exec.specs.Relations.{sametxn};
ghost use Rattle.ql_formula.specs.Tables.{IsTableOf};
ghost use Rattle.ql_formula.specs.Truth.{place_of, together, in_one_txn, statement_true, in_range};
ghost use Rattle.ql_formula.specs.Search.{inside_of, cur_of, AllTrueFrom, IsFirstFrom};

use crate::relations::Relations;
use ql_base::{EffId, RunId};
use ql_exec::{Effect, Execution};
use ql_lang::{Body, OpChoice, Term};

/// What a formula refers to: an effect, or a begun transaction.
#[derive(Clone, Copy, PartialEq, Eq)]
pub(crate) enum Current {
    AtEffect(EffId),
    OfRun(RunId),
}

/// Whether the body is false at some choice that keeps the effects in `places` of all variables except
/// the last ones, which are `vars`. The first such choice is left in `places`.
pub(crate) fn breaks(
    body: &Body,
    vars: &[OpChoice],
    execution: &Execution,
    relations: &Relations,
    current: Current,
    places: &mut [u32],
) -> bool
    requires tables { IsTableOf relations.now execution.now }
    requires few { length vars.now ≤ length places.old }
    ensures length { length places.new ≡ length places.old }
    ensures kept { let at = length places.old - length vars.now in take at places.new
        ≡ take at places.old }
    ensures holds { result ≡ false → let at = length places.old - length vars.now in
        AllTrueFrom execution.now (λ ps. statement_true execution.now (inside_of execution.now current) ps (cur_of current) (statement_of body.now))
        (take at places.old) vars.now }
    ensures first { result ≡ true → let at = length places.old - length vars.now in
        IsFirstFrom execution.now (λ ps. statement_true execution.now (inside_of execution.now current) ps (cur_of current) (statement_of body.now))
        (take at places.old) vars.now (drop at places.new) }
{
    let [choice, others @ ..] = vars else {
        return !is_true(body, execution, relations, current, places);
    };
    let at = places.len() - vars.len();
    for before in 0..execution.len() {
        if !is_in_range(execution.effects(), choice, before + 1) {
            continue;
        }
        places[at] = before + 1;
        if breaks(body, others, execution, relations, current, places) {
            return true;
        }
    }
    false
}

// Whether an effect is one of those over which a variable ranges.
fn is_in_range(effects: &[Effect], choice: &OpChoice, id: u32) -> bool
    ensures { result ≡ in_range effects.now choice.now id }
{
    match (choice, effect(effects, id)) {
        (_, None) => false,
        (OpChoice::Any, Some(_)) => true,
        (OpChoice::OneOf(ops), Some(effect)) => ops.has(effect.op.0),
    }
}

// Whether what a formula says is true at a choice of effects.
fn is_true(
    body: &Body,
    execution: &Execution,
    relations: &Relations,
    current: Current,
    places: &[u32],
) -> bool
    requires { IsTableOf relations.now execution.now }
    ensures { result ≡ statement_true execution.now (inside_of execution.now current) places.now
        (cur_of current) (statement_of body.now) }
{
    match body {
        Body::True => true,
        Body::Apply(relation, first, second) => {
            let a = EffId(place_of(places, current, *first));
            let b = EffId(place_of(places, current, *second));
            relations.test(relation, a, b)
        }
        Body::And(left, right) => {
            is_true(left, execution, relations, current, places)
                && is_true(right, execution, relations, current, places)
        }
        Body::Or(left, right) => {
            is_true(left, execution, relations, current, places)
                || is_true(right, execution, relations, current, places)
        }
        Body::Implies(left, right) => {
            !is_true(left, execution, relations, current, places)
                || is_true(right, execution, relations, current, places)
        }
        Body::Txn(members, others) => {
            are_one_txn(
                execution.effects(),
                current,
                places,
                members.items(),
                others.items(),
            )
        }
    }
}

// The id of the effect that a term stands for.
fn place_of(places: &[u32], current: Current, term: Term) -> u32
    ensures { result ≡ place_of places.now (cur_of current) term }
{
    match term {
        Term::Cur => cur_of(current),
        Term::Var(v) => item_at(places, v as usize),
    }
}

fn item_at(items: &[u32], k: usize) -> u32
    ensures { result ≡ slice_index items.now k }
{
    match items.get(k) {
        Some(item) => *item,
        None => 0,
    }
}

fn cur_of(current: Current) -> u32
    ensures { result ≡ cur_of current }
{
    match current {
        Current::AtEffect(id) => id.0,
        Current::OfRun(_) => 0,
    }
}

// Whether the members are in the current transaction, and the others aren't and are together in one.
fn are_one_txn(
    effects: &[Effect],
    current: Current,
    places: &[u32],
    members: &[Term],
    others: &[Term],
) -> bool
    ensures { result ≡ in_one_txn effects.now (inside_of effects.now current)
        (place_of places.now (cur_of current)) members.now others.now }
{
    all_inside(effects, current, places, members)
        && none_inside(effects, current, places, others)
        && are_together(effects, current, places, others)
}

fn all_inside(effects: &[Effect], current: Current, places: &[u32], terms: &[Term]) -> bool
    ensures { result ≡ list_all
        (λ t. inside_of effects.now current (place_of places.now (cur_of current) t)) terms.now }
{
    terms.iter().all(|term| is_inside(effects, current, place_of(places, current, *term)))
}

fn none_inside(effects: &[Effect], current: Current, places: &[u32], terms: &[Term]) -> bool
    ensures { result ≡ list_all
        (λ t. not (inside_of effects.now current (place_of places.now (cur_of current) t)))
        terms.now }
{
    terms.iter().all(|term| !is_inside(effects, current, place_of(places, current, *term)))
}

fn are_together(effects: &[Effect], current: Current, places: &[u32], terms: &[Term]) -> bool
    ensures { result ≡ together effects.now (place_of places.now (cur_of current)) terms.now }
{
    match terms.split_first() {
        Some((first, _)) => are_with(
            effects,
            place_of(places, current, *first),
            current,
            places,
            terms,
        ),
        None => true,
    }
}

// Whether each is in one transaction with the effect with the id.
fn are_with(effects: &[Effect], id: u32, current: Current, places: &[u32], terms: &[Term]) -> bool
    ensures { result ≡ list_all
        (λ t. sametxn effects.now id (place_of places.now (cur_of current) t)) terms.now }
{
    terms.iter().all(|term| is_one_txn(effects, id, place_of(places, current, *term)))
}

// Whether an effect is in the current transaction.
fn is_inside(effects: &[Effect], current: Current, id: u32) -> bool
    ensures { result ≡ inside_of effects.now current id }
{
    match (current, effect(effects, id)) {
        (Current::OfRun(run), Some(effect)) => effect.member.is_in(run),
        _ => false,
    }
}

// Whether two ids are equal, or are two effects of one begun transaction.
fn is_one_txn(effects: &[Effect], a: u32, b: u32) -> bool
    ensures { result ≡ sametxn effects.now a b }
{
    a == b
        || match (effect(effects, a), effect(effects, b)) {
            (Some(first), Some(second)) => first.member.is_with(second.member),
            _ => false,
        }
}

fn effect(effects: &[Effect], id: u32) -> Option<&Effect>
    ensures { option_copied result ≡ effect_at effects.now id }
{
    if id == 0 {
        None
    } else {
        effects.get(id as usize - 1)
    }
}
