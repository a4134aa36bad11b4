ghost use Rattle.std.specs.Prelude.{◌≡◌, IfOk};
ghost use Rattle.std.specs.Option.{option_map};
ghost use Rattle.ql_base.specs.declared.ids.OpId.{OpId};
ghost use Rattle.ql_value.specs.declared.value.Value.{Value};
ghost use Rattle.ql_exec.specs.declared.folder.Answered.{Answered};
ghost use Rattle.ql_exec.specs.Folding.{seen_in_order};
ghost use Rattle.ql_eval.specs.Folds.{answer_of, answer_over, answer_with, answered_of, bound_values, emitted};
ghost use Rattle.ql_eval.specs.Able.{AnswersAll, AnswersFit, IsAble};

use crate::env::Env;
use crate::evaluation::evaluate;
use crate::folding::state_after;
use crate::scope::Scope;
use crate::statement::with_args;
use ql_base::{IdSet, NoMemory, OpId};
use ql_exec::{Answered, Execution, Folder, Payload};
use ql_lang::{Bind, EmitDecl, OpDecl};
use ql_typing::Typed;
use ql_value::{Value, Values};
use std::alloc::Global;

/// Answers calls of a typed program's operations by folding what they see. It can answer a call if the operation is in
/// range, its arguments have the kinds of its parameters, and each effect is of an operation of its type and emitted
/// nothing or values of that operation's kinds.
#[derive(Drop)]
pub struct TypedFolder<'a> {
    alloc: Global,
    pub typed: &'a Typed,
}

impl<'a> TypedFolder<'a> {
    /// A folder of this program. Each call that it can answer has an answer by the definition, and that answer and its
    /// payload have the kinds that the operation declares.
    pub fn new(alloc: Global, typed: &'a Typed) -> TypedFolder<'a>
        ensures same { result.typed ≡ typed.entry }
        ensures answers { AnswersAll typed.now.program.types }
        ensures kinds { AnswersFit typed.now.program.types }
    {
        TypedFolder { alloc, typed }
    }
}

impl Folder for TypedFolder<'_> {
    ghost answered = { λ folder op args effects. answered_of folder.typed.now.program.types op.0 args effects };

    ghost able = { λ folder op args effects. IsAble folder.typed.now.program.types op.0 args effects };

    fn answer(
        &self,
        op: OpId,
        args: &Values,
        execution: &Execution,
        seen: &IdSet,
    ) -> Result<Answered, NoMemory> {
        match try_answer(self.alloc, self.typed, op, args, execution, seen)? {
            Some(answered) => Ok(answered),
            None => unreachable!(),
        }
    }
}

/// The answer and payload of a call, if its expressions have values.
pub fn try_answer(
    alloc: Global,
    t: &Typed,
    o: OpId,
    args: &Values,
    execution: &Execution,
    seen: &IdSet,
) -> Result<Option<Answered>, NoMemory>
    ensures { IfOk result
        (λ given. given ≡ answer_of t.now.program.types o.0 args.now
        (seen_in_order execution.now seen.now)) }
{
    if o.0 >= t.ops() {
        return Ok(None);
    }
    match state_after(alloc, t, t.kind_of(o), execution, seen)? {
        Some(state) => answer_over(alloc, t.op(o), args, state),
        None => Ok(None),
    }
}

/// The answer and payload of an operation over a state.
pub(crate) fn answer_over(
    alloc: Global,
    op: &OpDecl,
    args: &Values,
    state: Env,
) -> Result<Option<Answered>, NoMemory>
    ensures { IfOk result (λ given. given ≡ answer_over op.now args.now state) }
{
    let env = with_args(alloc, state, op.params.items(), args.items())?;
    let scope = Scope::of(env.items());
    let answer = evaluate(alloc, &scope, &op.answer)?;
    let payload = emitted(alloc, &scope, &op.effect)?;
    Ok(together(answer, payload))
}

fn together(answer: Option<Value>, payload: Option<Payload>) -> Option<Answered>
    ensures { result ≡ answer_with answer payload }
{
    match (answer, payload) {
        (Some(answer), Some(payload)) => Some(Answered { answer, payload }),
        _ => None,
    }
}

// What an operation emits, by its test.
fn emitted(
    alloc: Global,
    scope: &Scope<'_>,
    effect: &Option<EmitDecl>,
) -> Result<Option<Payload>, NoMemory>
    ensures { IfOk result (λ payload. payload ≡ emitted scope.now effect.now) }
{
    let Some(emit) = effect else {
        return Ok(Some(Payload::Nothing));
    };
    match evaluate(alloc, scope, &emit.test)? {
        Some(Value::Bool(true)) => emit_values(alloc, scope, emit.binds.items()),
        Some(Value::Bool(false)) => Ok(Some(Payload::Nothing)),
        _ => Ok(None),
    }
}

fn emit_values(
    alloc: Global,
    scope: &Scope<'_>,
    binds: &[Bind],
) -> Result<Option<Payload>, NoMemory>
    ensures { IfOk result
        (λ payload. payload ≡ option_map
        (λ values. Payload.Emitted values) (bound_values scope.now binds.now)) }
{
    match bound_values(alloc, scope, binds)? {
        Some(values) => Ok(Some(Payload::Emitted(values))),
        None => Ok(None),
    }
}

// The values of emitted expressions.
fn bound_values(
    alloc: Global,
    scope: &Scope<'_>,
    binds: &[Bind],
) -> Result<Option<Values>, NoMemory>
    ensures { IfOk result (λ values. values ≡ bound_values scope.now binds.now) }
{
    let mut values = Vec::with_capacity(alloc, binds.len())?;
    for bind in binds {
        match evaluate(alloc, scope, &bind.value)? {
            Some(value) => values.push(value)?,
            None => return Ok(None),
        }
    }
    Ok(Some(Values::of(values)))
}
