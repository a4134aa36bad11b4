// What is true wherever some relations hold, whatever the level.
ghost use Rattle.std.specs.Prelude.{◌≡◌, ℕ, IfOk, List, true};
ghost use Rattle.std.specs.List.{All};
ghost use Rattle.ql_exec.specs.declared.effect.Effect.{Effect};
ghost use Rattle.ql_exec.specs.Execution.{IsExecution};
ghost use Rattle.ql_lang.specs.Formulas.{statement_of};
ghost use Rattle.ql_warnings.specs.Clashes.{AllEntail};
ghost use Rattle.ql_warnings.specs.Known.{IsKnownAt, PartsKept};

use crate::clash::{Scene, has_clash};
use crate::known::{Known, gives, push_known};
use crate::transactions::never_holds;
use ql_base::NoMemory;
use ql_lang::{Body, Rel};
use std::alloc::Global;

/// Whether a statement follows from what is known. False may also mean that it wasn't found out.
pub(crate) fn is_given(
    alloc: Global,
    scene: Scene,
    known: &[Known],
    body: &Body,
) -> Result<bool, NoMemory>
    ensures { IfOk result
        (λ given. given ≡ true
        → AllEntail scene.entry.program.now.program scene.entry.goal scene.entry.vars.now
        known.now (statement_of body.now)) }
{
    match body {
        Body::True => Ok(true),
        Body::Apply(Rel::Base(name, at), first, second) => {
            let wanted = Known {
                name: *name,
                at: *at,
                first: *first,
                second: *second,
            };
            Ok(is_known(known, wanted))
        }
        Body::And(left, right) => {
            Ok(is_given(alloc, scene, known, left)? && is_given(alloc, scene, known, right)?)
        }
        Body::Or(left, right) => {
            Ok(is_given(alloc, scene, known, left)? || is_given(alloc, scene, known, right)?)
        }
        Body::Implies(left, right) => {
            if never_holds(left) {
                return Ok(true);
            }
            let more = with_parts(alloc, known, left)?;
            if has_clash(scene, &more) {
                return Ok(true);
            }
            is_given(alloc, scene, &more, right)
        }
        Body::Apply(_, _, _) | Body::Txn(_, _) => Ok(false),
    }
}

/// What is known once a statement is assumed too.
pub(crate) fn with_parts(
    alloc: Global,
    known: &[Known],
    body: &Body,
) -> Result<Vec<Known>, NoMemory>
    ensures { IfOk result (λ more. PartsKept (statement_of body.now) known.now more.items) }
{
    let mut more = Vec::from_slice(alloc, known)?;
    push_known(&mut more, body)?;
    Ok(more)
}

// Whether one of the relations implies another.
fn is_known(known: &[Known], wanted: Known) -> bool
    ensures { result ≡ true → (x : List Effect) → IsExecution x → (places : List ℕ) (cur : ℕ)
        → All (IsKnownAt x places cur) known.now → IsKnownAt x places cur wanted }
{
    for k in 0..known.len() {
        if gives(known[k], wanted) {
            return true;
        }
    }
    false
}
