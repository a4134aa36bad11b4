ghost use Rattle.std.specs.Prelude.{◌≡◌, ◌≤◌, ◌<◌, ◌^◌, nat_eq, length, Some, None, if◌then◌else◌};
ghost use Rattle.ql_exec.specs.Effects.{effect_at, both};
ghost use Rattle.ql_exec.specs.Execution.{IsExecution};
ghost use Rattle.ql_exec.specs.Links.{HasLinks, IsLink};
ghost use Rattle.ql_exec.specs.Relations.{same_run};
ghost use Rattle.ql_ranges.specs.Searches.{IsAlone, IsLastOnObject, IsLastInSession, IsNextInSession, IsMemberBelow, IsMemberAbove};

use ql_exec::{Effect, Member};

/// The effect with this id.
pub(crate) fn effect(effects: &[Effect], id: u32) -> &Effect
    requires first { 1 ≤ id }
    requires last { id ≤ length effects.now }
    ensures { effect_at effects.now id ≡ Some result.now }
{
    &effects[id as usize - 1]
}

/// The last effect before one in its session on its object, if it is later than `stop`.
pub(crate) fn last_on_object(effects: &[Effect], links: &[u32], e: u32, stop: u32) -> Option<u32>
    requires links { HasLinks links.now effects.now }
    requires first { 1 ≤ e }
    requires last { e ≤ length effects.now }
    ensures { IsLastOnObject effects.now e stop result }
{
    let mut k = link(effects, links, e);
    while k > stop {
        if share_object(effect(effects, k), effect(effects, e)) {
            return Some(k);
        }
        k = link(effects, links, k);
    }
    None
}

// The effect before one in its session, 0 if there is none.
fn link(effects: &[Effect], links: &[u32], e: u32) -> u32
    requires links { HasLinks links.now effects.now }
    requires first { 1 ≤ e }
    requires last { e ≤ length effects.now }
    ensures { IsLink effects.now e result }
{
    links[e as usize - 1]
}

fn share_object(a: &Effect, b: &Effect) -> bool
    ensures { result ≡ nat_eq a.now.object.0 b.now.object.0 }
{
    a.object.0 == b.object.0
}

/// The last effect before one in its transaction.
pub(crate) fn member_below(effects: &[Effect], links: &[u32], e: u32) -> Option<u32>
    requires law { IsExecution effects.now }
    requires links { HasLinks links.now effects.now }
    requires first { 1 ≤ e }
    requires last { e ≤ length effects.now }
    ensures { IsMemberBelow effects.now e result }
{
    if is_alone(effects, e) {
        return None;
    }
    match last_in_session(effects, links, e) {
        Some(k) => only_in_txn(effects, e, k),
        None => None,
    }
}

/// The first effect after one in its transaction.
pub(crate) fn member_above(effects: &[Effect], e: u32) -> Option<u32>
    requires law { IsExecution effects.now }
    requires few { length effects.now < 2 ^ 32 }
    requires first { 1 ≤ e }
    requires last { e ≤ length effects.now }
    ensures { IsMemberAbove effects.now e result }
{
    if is_alone(effects, e) {
        return None;
    }
    match next_in_session(effects, e) {
        Some(k) => only_in_txn(effects, e, k),
        None => None,
    }
}

fn last_in_session(effects: &[Effect], links: &[u32], e: u32) -> Option<u32>
    requires links { HasLinks links.now effects.now }
    requires first { 1 ≤ e }
    requires last { e ≤ length effects.now }
    ensures { IsLastInSession effects.now e result }
{
    match link(effects, links, e) {
        0 => None,
        k => Some(k),
    }
}

fn next_in_session(effects: &[Effect], e: u32) -> Option<u32>
    requires few { length effects.now < 2 ^ 32 }
    requires first { 1 ≤ e }
    requires last { e ≤ length effects.now }
    ensures { IsNextInSession effects.now e result }
{
    let mut k = e;
    while (k as usize) < effects.len() {
        k += 1;
        if effect(effects, k).session.0 == effect(effects, e).session.0 {
            return Some(k);
        }
    }
    None
}

// Whether the effect is in no transaction.
fn is_alone(effects: &[Effect], e: u32) -> bool
    requires first { 1 ≤ e }
    requires last { e ≤ length effects.now }
    ensures { IsAlone effects.now e result }
{
    match effect(effects, e).member {
        Member::Alone => true,
        Member::Inside(_, _) => false,
    }
}

// The other effect, if it is in the transaction of the first.
fn only_in_txn(effects: &[Effect], e: u32, other: u32) -> Option<u32>
    requires first { 1 ≤ e }
    requires last { e ≤ length effects.now }
    requires other_first { 1 ≤ other }
    requires other_last { other ≤ length effects.now }
    ensures { result ≡ (if both
        (λ f g. same_run f.member g.member) (effect_at effects.now e)
        (effect_at effects.now other) then Some other else None) }
{
    if effect(effects, e)
        .member
        .is_with(effect(effects, other).member)
    {
        Some(other)
    } else {
        None
    }
}
