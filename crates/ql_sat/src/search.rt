// The solver: unit propagation and decisions on a trail, and from each conflict a learned clause.
ghost use Rattle.std.specs.Prelude.{◌≡◌, ◌≢◌, ℕ, ◌+◌, ◌<◌, [], length, IfNone, IfOk, IfSome, OnOk, Some};
ghost use Rattle.std.specs.List.{slice_index_or};
ghost use Rattle.ql_cnf.specs.Satisfaction.{ClausesInRange};
ghost use Rattle.ql_refute.specs.Verdict.{hinted};
ghost use Rattle.ql_sat.specs.Answer.{HasNumbers, IsRight};
ghost use Rattle.ql_sat.specs.State.{IsReady, IsTaken};

use crate::Decided;
use crate::known::Known;
use crate::learning::learn;
use crate::model::{assignment, greatest_unset};
use crate::propagation::propagate;
use crate::state::Search;
use crate::trail::decide_on;
use crate::turn::Turn;
use ql_base::NoMemory;
use ql_cnf::{Clauses, Lit};
use ql_refute::{Hint, Lines, Refutation};
use std::alloc::Global;

/// An assignment that satisfies the clauses, or a refutation of them.
///
/// Conflict-driven clause learning (Marques-Silva and Sakallah, "GRASP", 1999): the learned clause is
/// the one at the first unique implication point, and each is kept. Clauses watch two of their literals
/// (Moskewicz and others, "Chaff", 2001). The next decision is on the unset variable that was most active
/// in recent conflicts, with its last value. There are no restarts. The search ends because each turn makes
/// the trail greater, read as a number in base 3 in which a decision is the digit 1 and a forced literal 2.
pub fn decide(alloc: Global, c: &Clauses) -> Result<Decided, NoMemory>
    ensures right { IfOk result (IsRight c.now) }

    // No hint of a refutation has the number 0, which names nothing.
    ensures numbered { IfOk result HasNumbers }
{
    let mut search = Search::new(alloc, c)?;
    'turns: loop {
        match take_turn(alloc, c, &mut search)? {
            Turn::More => {}
            Turn::Model => return Ok(Decided::Model(assignment(alloc, &search.trail.marks)?)),
            Turn::Refuted(_) => {
                return Ok(Decided::Refuted(Refutation {
                    lines: Lines::of(search.lines),
                }));
            }
        }
    }
}

// Propagates, and then learns from a conflict or decides on a variable.
fn take_turn(alloc: Global, c: &Clauses, search: &mut Search) -> Result<Turn, NoMemory>
    requires { IsReady c.now search.old }
    ensures { IfOk result (IsTaken c.now search.old search.new) }
{
    let known = Known {
        given: c,
        lines: &search.lines,
    };
    if let Some(conflict) = propagate(known, &mut search.trail, &mut search.guide)? {
        return learn(alloc, c, conflict, search);
    }
    let order = &mut search.guide.order;
    if let Some(var) = order.next(c.variables(), &search.trail.marks) {
        let positive = order.phase(var);
        decide_on(Lit { var, positive }, &mut search.trail)?;
        return Ok(Turn::More);
    }
    finish(alloc, c, search)
}

// Everything is propagated, and no variable is left to decide on.
fn finish(alloc: Global, c: &Clauses, search: &mut Search) -> Result<Turn, NoMemory>
    requires ready { IsReady c.now search.old }
    requires all { search.old.guide.queue.done ≡ length search.old.trail.steps.items }
    ensures { IfOk result (IsTaken c.now search.old search.new) }
{
    if let Some(var) = greatest_unset(c.variables(), &search.trail.marks) {
        let positive = search.guide.order.phase(var);
        decide_on(Lit { var, positive }, &mut search.trail)?;
        return Ok(Turn::More);
    }
    match first_empty(c) {
        None => Ok(Turn::Model),
        Some(number) => learn(alloc, c, Hint::Given(number), search),
    }
}

// The first clause without literals, which watches nothing.
fn first_empty(c: &Clauses) -> Option<u32>
    ensures none { IfNone result
        ((k : ℕ) → k < length c.now.clauses → slice_index_or c.now.clauses k [] ≢ []) }
    ensures empty { IfSome result (λ number. hinted c.now [] (Hint.Given number) ≡ Some []) }
    ensures in_range { ClausesInRange c.now.variables c.now.clauses }
{
    for k in 0..c.len() {
        if c.clause(k + 1).items().is_empty() {
            return Some(k + 1);
        }
    }
    None
}
