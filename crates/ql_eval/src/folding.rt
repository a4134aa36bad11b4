ghost use Rattle.std.specs.Prelude.{◌≡◌, ◌<◌, ◌++◌, All, IfOk, Some, length, map, slice_get};
ghost use Rattle.std.specs.Option.{option_map};
ghost use Rattle.ql_exec.specs.Folding.{seen_in_order};
ghost use Rattle.ql_typing.specs.Operations.{all_ops};
ghost use Rattle.ql_eval.specs.Able.{AreFields, FitsOp, IsOfType, type_of_op};
ghost use Rattle.ql_eval.specs.Folds.{after_op, after_payload, applied, begun, begun_value, field_word, fold_of, folded, under, values_in};

use crate::env::Env;
use crate::order::emitting_in_order;
use crate::scalar::literal;
use crate::statement::run;
use ql_base::{IdSet, NoMemory, OpId, TypeId, Word};
use ql_exec::{Effect, Execution, Payload};
use ql_lang::{Field, InitNode, Kind};
use ql_typing::Typed;
use ql_value::{MapVal, SetVal, Value, Values, copy};
use std::alloc::Global;

/// The state of an object after the effects with some ids, in order of stamp and session.
pub(crate) fn state_after(
    alloc: Global,
    t: &Typed,
    kind: TypeId,
    execution: &Execution,
    seen: &IdSet,
) -> Result<Option<Env>, NoMemory>
    requires { kind.0 < length t.now.program.types }
    ensures { IfOk result
        (λ state. state ≡ fold_of t.now.program.types kind.0
        (seen_in_order execution.now seen.now)) }
{
    let state = begin(alloc, t.type_decl(kind).fields.items())?;
    fold_seen(alloc, t, state, execution, seen)
}

/// The state after the effects with some ids, in order of stamp and session, or `None` if an expression has no value.
/// What emitted nothing leaves the state as it is.
pub(crate) fn fold_seen(
    alloc: Global,
    t: &Typed,
    state: Env,
    execution: &Execution,
    seen: &IdSet,
) -> Result<Option<Env>, NoMemory>
    ensures { IfOk result
        (λ after. after ≡ folded (all_ops t.now.program.types) state
        (seen_in_order execution.now seen.now)) }
{
    let order = emitting_in_order(alloc, execution, seen)?;
    fold_all(alloc, t, state, &order)
}

/// The state before any effect.
pub(crate) fn begin(alloc: Global, fields: &[Field]) -> Result<Env, NoMemory>
    ensures { IfOk result (λ state. state ≡ begun fields.now) }
{
    let mut state = Env::of(Vec::with_capacity(alloc, fields.len())?);
    for field in fields {
        state.push(
            field.name.word,
            begin_one(alloc, field.kind, &field.init.node)?,
        )?;
    }
    Ok(state)
}

fn begin_one(alloc: Global, kind: Kind, init: &InitNode) -> Result<Value, NoMemory>
    ensures { IfOk result (λ value. value ≡ begun_value kind init.now) }
{
    match (kind, init) {
        (_, InitNode::Int(n)) => Ok(Value::Int(*n)),
        (_, InitNode::Text(text)) => Ok(Value::Text(literal(alloc, text)?)),
        (_, InitNode::Bool(b)) => Ok(Value::Bool(*b)),
        (_, InitNode::Unit) => Ok(Value::Unit),
        (Kind::Map(_, _), InitNode::Empty) => Ok(Value::Map(MapVal::of(Vec::new(alloc)))),
        (_, InitNode::Empty) => Ok(Value::Set(SetVal::of(Vec::new(alloc)))),
    }
}

// The state after effects, one after another. Each statement changes the state in place.
fn fold_all(
    alloc: Global,
    t: &Typed,
    state: Env,
    effects: &[&Effect],
) -> Result<Option<Env>, NoMemory>
    ensures { IfOk result
        (λ after. after ≡ folded (all_ops t.now.program.types) state
        (map (λ e. e.now) effects.now)) }
{
    let mut state = state;
    for effect in effects {
        match fold_one(alloc, t, state, effect)? {
            Some(next) => state = next,
            None => return Ok(None),
        }
    }
    Ok(Some(state))
}

fn fold_one(alloc: Global, t: &Typed, state: Env, effect: &Effect) -> Result<Option<Env>, NoMemory>
    ensures { IfOk result
        (λ after. after ≡ after_payload (all_ops t.now.program.types) effect.now.op.0 state
        effect.now.payload) }
{
    match &effect.payload {
        Payload::Nothing => Ok(Some(state)),
        Payload::Emitted(payload) => apply_op(alloc, t, effect.op, state, payload),
    }
}

// The state after one operation's statements.
fn apply_op(
    alloc: Global,
    t: &Typed,
    o: OpId,
    state: Env,
    payload: &Values,
) -> Result<Option<Env>, NoMemory>
    ensures { IfOk result
        (λ after. after ≡ after_op (slice_get (all_ops t.now.program.types) o.0) state
        payload.now) }
{
    if o.0 >= t.ops() {
        return Ok(None);
    }
    match &t.op(o).effect {
        Some(emit) => run(alloc, state, emit, payload),
        None => Ok(None),
    }
}

/// The values of the state after an operation's statements, which run one after another under the emitted values.
pub fn apply(
    alloc: Global,
    t: &Typed,
    o: OpId,
    state: Values,
    payload: &Values,
) -> Result<Values, NoMemory>
    requires within { o.0 < length (all_ops t.now.program.types) }
    requires state { AreFields (type_of_op t.now.program.types o.0) state }
    requires payload { FitsOp (slice_get (all_ops t.now.program.types) o.0)
        (Payload.Emitted payload.now) }
    ensures value { IfOk result
        (λ after. applied t.now.program.types o.0 state payload.now ≡ Some after) }
    ensures kinds { IfOk result (AreFields (type_of_op t.now.program.types o.0)) }
{
    match try_apply(alloc, t, o, &state, payload)? {
        Some(after) => Ok(after),
        None => unreachable!(),
    }
}

// The same, or `None` if a statement's expression has no value.
fn try_apply(
    alloc: Global,
    t: &Typed,
    o: OpId,
    state: &Values,
    payload: &Values,
) -> Result<Option<Values>, NoMemory>
    requires { o.0 < length (all_ops t.now.program.types) }
    ensures { IfOk result (λ after. after ≡ applied t.now.program.types o.0 state.now payload.now) }
{
    let fields = t.type_decl(t.kind_of(o)).fields.items();
    let env = with_fields(alloc, Env::of(Vec::new(alloc)), fields, state.items())?;
    match apply_op(alloc, t, o, env, payload)? {
        Some(env) => Ok(Some(values_of(alloc, env.items())?)),
        None => Ok(None),
    }
}

// The fields' names with a state's values.
fn with_fields(alloc: Global, env: Env, fields: &[Field], values: &[Value]) -> Result<Env, NoMemory>
    ensures { IfOk result (λ whole. whole ≡ env ++ under field_word fields.now values.now) }
{
    let mut env = env;
    for k in 0..fields.len().min(values.len()) {
        env.push(fields[k].name.word, copy(alloc, &values[k])?)?;
    }
    Ok(env)
}

// The values of a state.
fn values_of(alloc: Global, pairs: &[(Word, Value)]) -> Result<Values, NoMemory>
    ensures { IfOk result (λ values. values ≡ values_in pairs.now) }
{
    let mut values = Vec::with_capacity(alloc, pairs.len())?;
    for pair in pairs {
        values.push(copy(alloc, &pair.1)?)?;
    }
    Ok(Values::of(values))
}

/// The values of an object's state after the effects with some ids, in order of stamp and session. The effects are of
/// the object's type, and each emitted nothing or values of its operation's kinds.
pub fn fold(
    alloc: Global,
    t: &Typed,
    kind: TypeId,
    execution: &Execution,
    seen: &IdSet,
) -> Result<Values, NoMemory>
    requires within { kind.0 < length t.now.program.types }
    requires own { All (IsOfType t.now.program.types (Some kind.0))
        (seen_in_order execution.now seen.now) }
    ensures value { IfOk result
        (λ state. option_map values_in
        (fold_of t.now.program.types kind.0 (seen_in_order execution.now seen.now))
        ≡ Some state) }
    ensures kinds { IfOk result (AreFields (slice_get t.now.program.types kind.0)) }
{
    match try_fold(alloc, t, kind, execution, seen)? {
        Some(state) => Ok(state),
        None => unreachable!(),
    }
}

// The same, or `None` if an expression has no value.
fn try_fold(
    alloc: Global,
    t: &Typed,
    kind: TypeId,
    execution: &Execution,
    seen: &IdSet,
) -> Result<Option<Values>, NoMemory>
    requires { kind.0 < length t.now.program.types }
    ensures { IfOk result
        (λ state. state ≡ option_map values_in
        (fold_of t.now.program.types kind.0 (seen_in_order execution.now seen.now))) }
{
    match state_after(alloc, t, kind, execution, seen)? {
        Some(state) => Ok(Some(values_of(alloc, state.items())?)),
        None => Ok(None),
    }
}
