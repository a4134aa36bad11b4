// Warnings of a target's contract.
ghost use Rattle.std.specs.Prelude.{◌≡◌, ◌≢◌, ◌<◌, ◌^◌, ℕ, IfOk, List, false, length, true};
ghost use Rattle.std.specs.List.{All};
ghost use Rattle.ql_lang.specs.Formulas.{Always, resolved_of, statement_of};
ghost use Rattle.ql_ground.specs.OfPrograms.{IsGoalOf};
ghost use Rattle.ql_warnings.specs.Premises.{AsksNothing, IsTargetContract};
ghost use Rattle.ql_warnings.specs.Warnings.{AreWarnings, Declares, IsWarning};

use crate::always::is_given;
use crate::clash::Scene;
use crate::lexed::Lexed;
use crate::named::named;
use crate::next::next_name;
use crate::premises::premises;
use crate::unbracketed::{Extent, unbracketed};
use crate::warning::{Warning, push_all};
use ql_base::NoMemory;
use ql_ground::Goal;
use ql_lang::{Body, Formula, Var};
use ql_typing::Typed;
use std::alloc::Global;

/// The warnings of a target's contract, in order of the variants of `Warning`: all but `RuledOut`.
pub fn warnings(alloc: Global, lexed: &Lexed, t: &Typed, g: Goal) -> Result<Vec<Warning>, NoMemory>
    requires { IsGoalOf t.now.program g }
    ensures { IfOk result (λ found. AreWarnings lexed.now t.now.program g found.items) }
{
    let source = lexed.source();
    let (vars, at) = declared(t, g);
    let end = next_name(t, source, at);
    let mut found = named(alloc, t, vars)?;
    let brackets = unbracketed(alloc, lexed, Extent { start: at, end })?;
    push_all(&mut found, &brackets)?;
    let of_contract = of_contract(alloc, source, t, g)?;
    push_all(&mut found, &of_contract)?;
    Ok(found)
}

// The variables of a target's contract, and the offset of its name.
fn declared(t: &Typed, g: Goal) -> (&[Var], u32)
    requires { IsGoalOf t.now.program g }
    ensures { Declares t.now.program g result.0.now result.1 }
{
    match g {
        Goal::OpAt(o, _) => {
            let op = t.op(o);
            (op.contract.vars.items(), op.name.at)
        }
        Goal::TxnAt(d, _) => {
            let txn = t.txn(d);
            (txn.contract.vars.items(), txn.name.at)
        }
    }
}

// The warning that a contract asks for nothing, and those of its premises.
fn of_contract(alloc: Global, source: &[u8], t: &Typed, g: Goal) -> Result<Vec<Warning>, NoMemory>
    requires bytes { length source.now < 2 ^ 32 }
    requires goal { IsGoalOf t.now.program g }
    ensures { IfOk result (λ found. All (IsWarning source.now t.now.program g) found.items) }
{
    let mut found = nothing(alloc, t, g)?;
    let of_premises = of_premises(alloc, source, t, g)?;
    push_all(&mut found, &of_premises)?;
    Ok(found)
}

fn of_premises(alloc: Global, source: &[u8], t: &Typed, g: Goal) -> Result<Vec<Warning>, NoMemory>
    requires bytes { length source.now < 2 ^ 32 }
    requires goal { IsGoalOf t.now.program g }
    ensures { IfOk result (λ found. All (IsWarning source.now t.now.program g) found.items) }
{
    let formula = formula_of(t, g);
    let scene = Scene {
        program: t,
        goal: g,
        vars: formula.vars.items(),
    };
    let found = premises(alloc, source, scene, &formula.body)?;
    Ok(found)
}

// The warning that a contract asks for nothing, if it does.
fn nothing(alloc: Global, t: &Typed, g: Goal) -> Result<Vec<Warning>, NoMemory>
    requires { IsGoalOf t.now.program g }
    ensures { IfOk result
        (λ found. (source : List ℕ) → All (IsWarning source t.now.program g) found.items) }
{
    let mut found = Vec::new(alloc);
    if asks_nothing(alloc, t, g)? {
        found.push(Warning::AsksNothing)?;
    }
    Ok(found)
}

// Whether a contract isn't `true` and yet always true. False may also mean that this wasn't found out.
fn asks_nothing(alloc: Global, t: &Typed, g: Goal) -> Result<bool, NoMemory>
    requires { IsGoalOf t.now.program g }
    ensures { IfOk result (λ nothing. nothing ≡ true → AsksNothing t.now.program g) }
{
    let formula = formula_of(t, g);
    if is_true(&formula.body) {
        return Ok(false);
    }
    let scene = Scene {
        program: t,
        goal: g,
        vars: formula.vars.items(),
    };
    is_given(alloc, scene, &[], &formula.body)
}

fn is_true(body: &Body) -> bool
    ensures { result ≡ false → statement_of body.now ≢ Always }
{
    match body {
        Body::True => true,
        Body::Apply(_, _, _)
        | Body::And(_, _)
        | Body::Or(_, _)
        | Body::Implies(_, _)
        | Body::Txn(_, _) => false,
    }
}

/// The formula of a goal's contract.
pub fn formula_of(t: &Typed, g: Goal) -> &Formula
    requires { IsGoalOf t.now.program g }
    ensures { IsTargetContract t.now.program g (resolved_of result.now) }
{
    match g {
        Goal::OpAt(o, _) => t.op_formula(o),
        Goal::TxnAt(d, _) => t.txn_formula(d),
    }
}
