ghost use Rattle.std.specs.Prelude.{◌≡◌, ◌++◌, IfOk};
ghost use Rattle.ql_eval.specs.Folds.{after_emit, after_stmt, after_stmts, param_word, under};

use crate::emitted::Emitted;
use crate::env::Env;
use crate::evaluation::evaluate;
use crate::running::Running;
use ql_base::NoMemory;
use ql_lang::{EmitDecl, Param, Stmt};
use ql_value::{Value, Values, copy};
use std::alloc::Global;

/// The state after an operation's statements, under the emitted values.
pub(crate) fn run(
    alloc: Global,
    state: Env,
    emit: &EmitDecl,
    payload: &Values,
) -> Result<Option<Env>, NoMemory>
    ensures { IfOk result (λ after. after ≡ after_emit state emit.now payload.now) }
{
    let fields = state.len();
    let emitted = Emitted::of(emit.binds.items(), payload.items());
    let begun = Running::of(state, emitted);
    match run_all(alloc, begun, emit.stmts.items())? {
        Some(ended) => Ok(Some(ended.first(alloc, fields)?)),
        None => Ok(None),
    }
}

// Statements one after another.
fn run_all<'a>(
    alloc: Global,
    begun: Running<'a>,
    stmts: &[Stmt],
) -> Result<Option<Running<'a>>, NoMemory>
    ensures { IfOk result (λ after. after ≡ after_stmts begun.entry stmts.now) }
{
    let mut running = begun;
    for stmt in stmts {
        match run_one(alloc, running, stmt)? {
            Some(next) => running = next,
            None => return Ok(None),
        }
    }
    Ok(Some(running))
}

fn run_one<'a>(
    alloc: Global,
    running: Running<'a>,
    stmt: &Stmt,
) -> Result<Option<Running<'a>>, NoMemory>
    ensures { IfOk result (λ after. after ≡ after_stmt running.entry stmt.now) }
{
    match evaluate(alloc, &running.scope(), &stmt.value)? {
        Some(value) => Ok(Some(running.assigned(alloc, &stmt.target.word, value)?)),
        None => Ok(None),
    }
}

/// The names in scope, with an operation's arguments added under their names.
pub(crate) fn with_args(
    alloc: Global,
    env: Env,
    params: &[Param],
    values: &[Value],
) -> Result<Env, NoMemory>
    ensures { IfOk result (λ whole. whole ≡ env ++ under param_word params.now values.now) }
{
    let mut env = env;
    for k in 0..params.len().min(values.len()) {
        env.push(params[k].name.word, copy(alloc, &values[k])?)?;
    }
    Ok(env)
}
