ghost use Rattle.std.specs.Prelude.{◌≡◌, ◌≤◌, length, map, MatchOption};
ghost use Rattle.ql_lang.specs.Formulas.{resolved_of};
ghost use Rattle.ql_exec.specs.Relations.{inside};
ghost use Rattle.ql_formula.specs.Tables.{IsTableOf};
ghost use Rattle.ql_formula.specs.Truth.{HoldsFor, Holds, HoldsTxn, IsFirstFalse, none_inside};
ghost use Rattle.ql_formula.specs.Search.{inside_of, cur_of};

use crate::places::Places;
use crate::relations::Relations;
use crate::search::{Current, breaks};
use ql_base::{EffId, RunId};
use ql_exec::Execution;
use ql_lang::Formula;

/// The first choice of effects for the variables at which the formula is false of the effect;
/// `None` if it is true at every choice. Choices are ordered by the first variable's effect, then
/// by the second's, and so on.
pub fn holds_at(
    formula: &Formula,
    execution: &Execution,
    relations: &Relations,
    cur: EffId,
) -> Option<Places>
    requires few { length formula.now.vars ≤ 5 }
    requires tables { IsTableOf relations.now execution.now }
    ensures { MatchOption result (Holds execution.now (resolved_of formula.now) cur.0)
        (λ places. IsFirstFalse execution.now none_inside cur.0 (resolved_of formula.now)
        (map (λ id. id.0) places)) }
{
    first_false(formula, execution, relations, Current::AtEffect(cur))
}

/// The same as `holds_at` for a begun transaction, which may have no effects.
pub fn holds_txn(
    formula: &Formula,
    execution: &Execution,
    relations: &Relations,
    run: RunId,
) -> Option<Places>
    requires few { length formula.now.vars ≤ 5 }
    requires tables { IsTableOf relations.now execution.now }
    ensures { MatchOption result (HoldsTxn execution.now (resolved_of formula.now) run.0)
        (λ places. IsFirstFalse execution.now (inside execution.now run.0) 0
        (resolved_of formula.now) (map (λ id. id.0) places)) }
{
    first_false(formula, execution, relations, Current::OfRun(run))
}

fn first_false(
    formula: &Formula,
    execution: &Execution,
    relations: &Relations,
    current: Current,
) -> Option<Places>
    requires few { length formula.now.vars ≤ 5 }
    requires tables { IsTableOf relations.now execution.now }
    ensures { MatchOption result
        (HoldsFor execution.now (inside_of execution.now current) (cur_of current)
        (resolved_of formula.now))
        (λ places. IsFirstFalse execution.now (inside_of execution.now current) (cur_of current)
        (resolved_of formula.now) (map (λ id. id.0) places)) }
{
    let vars = formula.vars.items();
    let mut row = [0; 5];
    let places = &mut row[..vars.len()];
    if breaks(&formula.body, vars, execution, relations, current, places) {
        Some(places_of(places))
    } else {
        None
    }
}

// The choice of some ids, which are at most five.
fn places_of(numbers: &[u32]) -> Places
    requires { length numbers.now ≤ 5 }
    ensures { map (λ id. id.0) result ≡ numbers.now }
{
    let mut row = [EffId(0); 5];
    for k in 0..numbers.len() {
        row[k] = EffId(numbers[k]);
    }
    Places::of(&row[..numbers.len()])
}
