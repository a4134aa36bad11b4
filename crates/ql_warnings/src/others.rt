// Countermodels that break the contracts of other operations.
ghost use Rattle.std.specs.Prelude.{◌≡◌, ◌<◌, ◌≤◌, IfOk, IfSome, Some, length, slice_get, true};
ghost use Rattle.std.specs.List.{All};
ghost use Rattle.ql_classify.specs.declared.finding.Finding.{Finding};
ghost use Rattle.ql_counter.specs.Countermodels.{IsCounterOf};
ghost use Rattle.ql_exec.specs.Effects.{effect_at};
ghost use Rattle.ql_exec.specs.declared.effect.Effect.{Effect};
ghost use Rattle.ql_formula.specs.Tables.{IsTableOf};
ghost use Rattle.ql_formula.specs.Truth.{Holds};
ghost use Rattle.ql_ground.specs.declared.goal.Goal.{Goal};
ghost use Rattle.ql_lang.specs.Formulas.{resolved_of};
ghost use Rattle.ql_typing.specs.Operations.{all_ops};
ghost use Rattle.ql_warnings.specs.Warnings.{AreFindings, BreaksOther, HasLevel, IsOther, IsRuledOut};

use crate::warning::Warning;
use ql_base::{EffId, MAX_WORK, NoMemory, OpId};
use ql_classify::Finding;
use ql_counter::Counter;
use ql_formula::{Relations, holds_at};
use ql_ground::Goal;
use ql_lang::Formula;
use ql_typing::Typed;
use std::alloc::Global;

/// The warnings of a countermodel.
pub fn counter_warnings(
    alloc: Global,
    t: &Typed,
    findings: &[Finding],
    g: Goal,
    c: &Counter,
) -> Result<Vec<Warning>, NoMemory>
    requires findings { AreFindings t.now.program findings.now }
    requires counter { IsCounterOf t.now.program g c.now }
    ensures { IfOk result (λ warned. All (IsRuledOut t.now.program g c.now) warned.items) }
{
    let mut warned = Vec::new(alloc);
    if let Some(warning) = ruled_out(alloc, t, findings, g, c)? {
        warned.push(warning)?;
    }
    Ok(warned)
}

// The first effect of another operation at which a countermodel breaks that operation's contract, if the operation has
// a level. Then the execution can't happen where each operation has its level.
fn ruled_out(
    alloc: Global,
    t: &Typed,
    findings: &[Finding],
    g: Goal,
    c: &Counter,
) -> Result<Option<Warning>, NoMemory>
    requires findings { AreFindings t.now.program findings.now }
    requires counter { IsCounterOf t.now.program g c.now }
    ensures { IfOk result (λ warning. IfSome warning (IsRuledOut t.now.program g c.now)) }
{
    let relations = Relations::build(alloc, &c.execution)?;
    for k in 0..c.execution.len() {
        let at = EffId(k + 1);
        let op = c.execution.get(at).op;
        if is_other(g, op) && breaks(t, findings, c, &relations, (op, at)) {
            return Ok(Some(Warning::RuledOut { op, at }));
        }
    }
    Ok(None)
}

fn is_other(g: Goal, op: OpId) -> bool
    ensures { result ≡ true → IsOther g op }
{
    match g {
        Goal::OpAt(o, _) => o.0 != op.0,
        Goal::TxnAt(_, _) => true,
    }
}

// Whether an effect breaks the contract of its operation, which has a level.
fn breaks(
    t: &Typed,
    findings: &[Finding],
    c: &Counter,
    relations: &Relations,
    effect: (OpId, EffId),
) -> bool
    requires findings { AreFindings t.now.program findings.now }
    requires counter { (g : Goal) × IsCounterOf t.now.program g c.now }
    requires tables { IsTableOf relations.now c.now.execution }
    requires there { (e : Effect) × (effect_at c.now.execution effect.1.0 ≡ Some e)
        × (e.op ≡ effect.0) }
    requires known { effect.0.0 < length (all_ops t.now.program.types) }
    ensures { result ≡ true → BreaksOther t.now.program c.now.execution effect.0 effect.1 }
{
    let (op, at) = effect;
    if !has_level(findings, op) {
        return false;
    }
    let contract = t.op_formula(op);
    is_cheap(contract, c) && is_false(contract, c, relations, at)
}

// Whether trying a contract at all effects of an execution is within the bound of the work that `verify` does.
fn is_cheap(f: &Formula, c: &Counter) -> bool {
    let effects = u128::from(c.execution.len());
    let mut work = effects;
    for _variable in f.vars.items() {
        work = work.saturating_mul(effects);
    }
    work <= MAX_WORK
}

fn is_false(f: &Formula, c: &Counter, relations: &Relations, at: EffId) -> bool
    requires few { length f.now.vars ≤ 5 }
    requires tables { IsTableOf relations.now c.now.execution }
    ensures { result ≡ true → Holds c.now.execution (resolved_of f.now) at.0 → ⊥ }
{
    holds_at(f, &c.execution, relations, at).is_some()
}

fn has_level(findings: &[Finding], op: OpId) -> bool
    requires { op.0 < length findings.now }
    ensures { result ≡ true → (f : Finding) × (slice_get findings.now op.0 ≡ Some f) × HasLevel f }
{
    matches!(findings[op.0 as usize], Finding::Least { .. })
}
