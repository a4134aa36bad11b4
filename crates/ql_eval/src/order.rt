ghost use Rattle.std.specs.Prelude.{◌≡◌, IfOk, map};
ghost use Rattle.std.specs.List.{filter, filter_map};
ghost use Rattle.std.specs.Option.{option_copied};
ghost use Rattle.std.specs.Ordering.{is_lt};
ghost use Rattle.ql_exec.specs.Effects.{effect_at};
ghost use Rattle.ql_exec.specs.Folding.{comes_before, seen_in_order};
ghost use Rattle.ql_eval.specs.Folds.{emitting_at, has_emitted};

use ql_base::{IdSet, NoMemory};
use ql_exec::{Effect, Execution, Payload};
use std::alloc::Global;
use std::cmp::Ordering;

/// Of the effects with some ids those that emitted values, in order of stamp and session.
pub(crate) fn emitting_in_order<'a>(
    alloc: Global,
    execution: &'a Execution,
    seen: &IdSet,
) -> Result<Vec<&'a Effect>, NoMemory>
    ensures { IfOk result
        (λ order. map (λ e. e.now) order.items
        ≡ filter has_emitted (seen_in_order execution.now seen.now)) }
{
    let mut order = emitting(alloc, execution.effects(), seen.items())?;
    order.sort_by(|a, b| compare(a, b))?;
    Ok(order)
}

// Of the effects with some ids those that emitted values.
fn emitting<'a>(
    alloc: Global,
    effects: &'a [Effect],
    ids: &[u32],
) -> Result<Vec<&'a Effect>, NoMemory>
    ensures { IfOk result
        (λ found. map (λ e. e.now) found.items ≡ filter_map (emitting_at effects.now) ids.now) }
{
    let mut found = Vec::with_capacity(alloc, ids.len())?;
    for id in ids {
        if let Some(effect) = find_emitting(effects, *id) {
            found.push(effect)?;
        }
    }
    Ok(found)
}

// The effect with an id, if it emitted values.
fn find_emitting(effects: &[Effect], id: u32) -> Option<&Effect>
    ensures { option_copied result ≡ emitting_at effects.now id }
{
    let effect = find(effects, id)?;
    match effect.payload {
        Payload::Nothing => None,
        Payload::Emitted(_) => Some(effect),
    }
}

// The effect with an id, counted from 1.
fn find(effects: &[Effect], id: u32) -> Option<&Effect>
    ensures { option_copied result ≡ effect_at effects.now id }
{
    if id == 0 {
        return None;
    }
    effects.get(id as usize - 1)
}

// By stamp, and at one stamp by session.
fn compare(a: &Effect, b: &Effect) -> Ordering
    ensures { is_lt result ≡ comes_before a.now b.now }
{
    a.stamp.cmp(&b.stamp).then(a.session.0.cmp(&b.session.0))
}
