ghost use Rattle.std.specs.Prelude.{◌≡◌, ◌<◌, ◌++◌, [], ℕ, All, IfOk, List, Some, length, slice_get};
ghost use Rattle.ql_exec.specs.declared.effect.Effect.{Effect};
ghost use Rattle.ql_exec.specs.Folding.{seen_in_order};
ghost use Rattle.ql_typing.specs.Operations.{op_kinds};
ghost use Rattle.ql_eval.specs.Able.{IsAble, IsOfType};
ghost use Rattle.ql_eval.specs.Folds.{answered_of, fold_of};
ghost use Rattle.ql_eval.specs.Resuming.{IsReached};

use crate::env::Env;
use crate::folder::answer_over;
use crate::folding::{begin, fold_seen};
use ql_base::{IdSet, NoMemory, OpId, TypeId};
use ql_exec::{Answered, Execution};
use ql_typing::Typed;
use ql_value::Values;
use std::alloc::Global;

/// The state of an object of a type before any effect.
pub fn first_state(alloc: Global, t: &Typed, kind: TypeId) -> Result<Env, NoMemory>
    requires { kind.0 < length t.now.program.types }
    ensures { IfOk result (λ state. fold_of t.now.program.types kind.0 [] ≡ Some state) }
{
    begin(alloc, t.type_decl(kind).fields.items())
}

/// The state of an object after some effects, which lead to `state`, and then those with some ids, in order of stamp
/// and session. All are of the object's type, and each emitted nothing or values of its operation's kinds.
pub fn fold_after(
    alloc: Global,
    t: &Typed,
    kind: TypeId,
    state: Env,
    execution: &Execution,
    ids: &IdSet,
) -> Result<Env, NoMemory>
    requires reached { IsReached t.now.program.types kind.0 state }
    requires own { All (IsOfType t.now.program.types (Some kind.0))
        (seen_in_order execution.now ids.now) }
    ensures { IfOk result
        (λ after. (before : List Effect) → fold_of t.now.program.types kind.0 before ≡ Some state
        → fold_of t.now.program.types kind.0 (before ++ seen_in_order execution.now ids.now)
        ≡ Some after) }
{
    match fold_seen(alloc, t, state, execution, ids)? {
        Some(after) => Ok(after),
        None => unreachable!(),
    }
}

/// The answer and payload of a call that sees some effects, which lead to `state`, and then those with some ids, in
/// order of stamp and session. All are of the operation's type, and each emitted nothing or values of its operation's
/// kinds.
pub fn answer_after(
    alloc: Global,
    t: &Typed,
    o: OpId,
    args: &Values,
    state: Env,
    execution: &Execution,
    ids: &IdSet,
) -> Result<Answered, NoMemory>
    requires able { IsAble t.now.program.types o.0 args.now (seen_in_order execution.now ids.now) }
    requires reached { (k : ℕ) × (slice_get (op_kinds t.now.program.types) o.0 ≡ Some k)
        × IsReached t.now.program.types k state }
    ensures { IfOk result
        (λ given. (k : ℕ) (before : List Effect)
        → slice_get (op_kinds t.now.program.types) o.0 ≡ Some k
        → fold_of t.now.program.types k before ≡ Some state
        → given ≡ answered_of t.now.program.types o.0 args.now
        (before ++ seen_in_order execution.now ids.now)) }
{
    let after = fold_after(alloc, t, t.kind_of(o), state, execution, ids)?;
    match answer_over(alloc, t.op(o), args, after)? {
        Some(answered) => Ok(answered),
        None => unreachable!(),
    }
}
