// Warnings as JSON.
ghost use Rattle.std.specs.Prelude.{◌≡◌, IfOk};
ghost use Rattle.serde_json.specs.View.{view};
ghost use Rattle.ql_ground.specs.OfPrograms.{IsGoalOf};
ghost use Rattle.ql_explain.specs.JsonExplanations.{IsWarningsData, place_data, warning_place_data, warning_data, warnings_data};
ghost use Rattle.ql_report.specs.JsonValues.{text_data};
ghost use Rattle.ql_warnings.specs.Texts.{warning_text};

use ql_base::NoMemory;
use ql_ground::Goal;
use ql_report::json_values::{pair, text};
use ql_typing::Typed;
use ql_warnings::{Lexed, Place, Warning, warning_text, warning_word, warnings as warnings_of};
use serde_json::{Map, Value as Json, put};
use std::alloc::Global;

/// What there is to warn of in a target's contract.
pub(crate) fn warnings(alloc: Global, lexed: &Lexed, t: &Typed, g: Goal) -> Result<Json, NoMemory>
    requires { IsGoalOf t.now.program g }
    ensures { IfOk result (λ json. IsWarningsData lexed.now t.now.program g (view json)) }
{
    let found = warnings_of(alloc, lexed, t, g)?;
    warnings_value(alloc, t, &found)
}

/// Warnings in order.
pub(crate) fn warnings_value(alloc: Global, t: &Typed, warned: &[Warning]) -> Result<Json, NoMemory>
    ensures { IfOk result (λ json. view json ≡ warnings_data t.now.program warned.now) }
{
    let mut list = Vec::with_capacity(alloc, warned.len())?;
    for k in 0..warned.len() {
        list.push(warning(alloc, t, warned[k])?)?;
    }
    Ok(Json::Array(list))
}

#[tactic(auto, using(crate::proofs::Members::warning_members))]
fn warning(alloc: Global, t: &Typed, warning: Warning) -> Result<Json, NoMemory>
    ensures { IfOk result (λ json. view json ≡ warning_data t.now.program warning) }
{
    let mut members = Map::new(alloc);
    put(
        &mut members,
        alloc,
        "kind",
        text(alloc, warning_word(warning).as_bytes())?,
    )?;
    put(&mut members, alloc, "place", place(alloc, warning)?)?;
    put(&mut members, alloc, "text", sentence(alloc, t, warning)?)?;
    Ok(Json::Object(members))
}

// The position that a warning is about, if it has one.
fn place(alloc: Global, warning: Warning) -> Result<Json, NoMemory>
    ensures { IfOk result (λ json. view json ≡ warning_place_data warning) }
{
    match warning {
        Warning::Unbracketed(place) => place_value(alloc, place),
        Warning::NeverApplies(place) => place_value(alloc, place),
        Warning::Unneeded(place) => place_value(alloc, place),
        _ => Ok(Json::Null),
    }
}

fn place_value(alloc: Global, place: Place) -> Result<Json, NoMemory>
    ensures { IfOk result (λ json. view json ≡ place_data place) }
{
    pair(Json::from(place.line), Json::from(place.column), alloc)
}

fn sentence(alloc: Global, t: &Typed, warning: Warning) -> Result<Json, NoMemory>
    ensures { IfOk result (λ json. view json ≡ text_data (warning_text t.now.program warning)) }
{
    let sentence = warning_text(alloc, t, warning)?;
    text(alloc, &sentence)
}
