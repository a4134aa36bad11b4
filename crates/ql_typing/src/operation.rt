ghost use Rattle.std.specs.Prelude.{◌≡◌, ◌++◌, Some, IfOk, OnOk};
ghost use Rattle.ql_lang.specs.Expressions.{expression_of};
ghost use Rattle.ql_typing.specs.Faults.{each, earlier, first_fault, repeats};
ghost use Rattle.ql_typing.specs.Kinds.{faults_as, reading_faults};
ghost use Rattle.ql_typing.specs.Programs.{above, bind_faults, binds_known, effect_faults, maybe_effect_faults, op_decl_faults, places, stmt_faults, target_names};

use crate::contract::contract_fault;
use crate::fault::{TypeFault, first};
use crate::function::kind_of_base;
use crate::judge::fault_as;
use crate::limits::above_limit;
use crate::names::list_fault;
use crate::scope::{Scope, Table};
use crate::word_set::WordSet;
use ql_base::{MAX_EMITTED, MAX_PARAMETERS, MAX_STATEMENTS, NoMemory};
use ql_lang::{Bind, EmitDecl, Kind, OpDecl, Stmt};
use std::alloc::Global;

/// The first fault of an operation. `names` holds the names of the fields, before and after the call.
pub(crate) fn op_decl_fault(
    alloc: Global,
    op: &OpDecl,
    known: &WordSet,
    fields: &Table,
    names: &mut WordSet,
) -> Result<Option<TypeFault>, NoMemory>
    ensures names { OnOk result (names.new ≡ names.old) }
    ensures fault { IfOk result
        (λ fault. fault ≡ first_fault (op_decl_faults known.now names.old fields.now op.now)) }
{
    let listed = list_fault(names, op.params.items(), MAX_PARAMETERS)?;
    let contract = contract_fault(alloc, &op.contract, Some(known), false)?;
    let params = Table::of(alloc, op.params.items())?;
    let scope = Scope::over(fields, params);
    let call = call_fault(alloc, op, fields, names, &scope)?;
    Ok(first(listed, first(contract, call)))
}

/// The first fault of an operation's answer and of what it emits, by the fields, and the fields and parameters.
fn call_fault(
    alloc: Global,
    op: &OpDecl,
    fields: &Table,
    names: &mut WordSet,
    scope: &Scope<'_>,
) -> Result<Option<TypeFault>, NoMemory>
    ensures names { OnOk result (names.new ≡ names.old) }
    ensures fault { IfOk result
        (λ fault. fault ≡ earlier
        (first_fault (faults_as scope.now (Some op.now.kind) (expression_of op.now.answer)))
        (first_fault (maybe_effect_faults names.old fields.now scope.now op.now.effect))) }
{
    let answer = fault_as(scope, Some(op.kind), &op.answer);
    let effect = maybe_effect_fault(alloc, &op.effect, fields, names, scope)?;
    Ok(first(answer, effect))
}

/// The first fault of what an operation emits, if it emits anything.
#[tactic(auto, unfolding(crate::specs::Faults::first_fault))]
fn maybe_effect_fault(
    alloc: Global,
    effect: &Option<EmitDecl>,
    fields: &Table,
    names: &mut WordSet,
    scope: &Scope<'_>,
) -> Result<Option<TypeFault>, NoMemory>
    ensures names { OnOk result (names.new ≡ names.old) }
    ensures fault { IfOk result
        (λ fault. fault ≡ first_fault
        (maybe_effect_faults names.old fields.now scope.now effect.now)) }
{
    match effect {
        Some(effect) => effect_fault(alloc, effect, fields, names, scope),
        None => Ok(None),
    }
}

/// The first fault of what an operation emits and of its statements.
fn effect_fault(
    alloc: Global,
    effect: &EmitDecl,
    fields: &Table,
    names: &mut WordSet,
    scope: &Scope<'_>,
) -> Result<Option<TypeFault>, NoMemory>
    ensures names { OnOk result (names.new ≡ names.old) }
    ensures fault { IfOk result
        (λ fault. fault ≡ first_fault (effect_faults names.old fields.now scope.now effect.now)) }
{
    let binds = effect.binds.items();
    let listed = list_fault(names, binds, MAX_EMITTED)?;
    let values = binds_fault(scope, binds);
    let test = fault_as(scope, Some(Kind::Bool), &effect.test);
    let applied = application_fault(alloc, effect, fields)?;
    Ok(first(listed, first(values, first(test, applied))))
}

/// The first fault of the statements that apply what an operation emits.
fn application_fault(
    alloc: Global,
    effect: &EmitDecl,
    fields: &Table,
) -> Result<Option<TypeFault>, NoMemory>
    ensures { IfOk result
        (λ fault. fault ≡ earlier (first_fault (above 64 (places (target_names effect.now.stmts))))
        (first_fault (each (stmt_faults fields.now (fields.now ++ binds_known effect.now.binds))
        effect.now.stmts))) }
{
    let stmts = effect.stmts.items();
    let binds = Table::of(alloc, effect.binds.items())?;
    let scope = Scope::over(fields, binds);
    let applied = stmts_fault(fields, &scope, stmts);
    Ok(first(above_limit(stmts, MAX_STATEMENTS), applied))
}

fn binds_fault(scope: &Scope<'_>, binds: &[Bind]) -> Option<TypeFault>
    ensures { result ≡ first_fault (each (bind_faults scope.now) binds.now) }
{
    let mut fault = None;
    for bind in binds {
        fault = first(fault, bind_fault(scope, bind));
    }
    fault
}

#[tactic(auto, unfolding(crate::specs::Programs::bind_faults))]
fn bind_fault(scope: &Scope<'_>, bind: &Bind) -> Option<TypeFault>
    ensures { result ≡ first_fault (bind_faults scope.now bind.now) }
{
    fault_as(scope, Some(kind_of_base(bind.base)), &bind.value)
}

fn stmts_fault(fields: &Table, scope: &Scope<'_>, stmts: &[Stmt]) -> Option<TypeFault>
    ensures { result ≡ first_fault (each (stmt_faults fields.now scope.now) stmts.now) }
{
    let mut fault = None;
    for stmt in stmts {
        fault = first(fault, stmt_fault(fields, scope, stmt));
    }
    fault
}

/// The first fault of a statement: it assigns a field, and a value of its kind.
fn stmt_fault(fields: &Table, scope: &Scope<'_>, stmt: &Stmt) -> Option<TypeFault>
    ensures { result ≡ first_fault (stmt_faults fields.now scope.now stmt.now) }
{
    let wanted = fields.find(&stmt.target.word);
    first(
        target_fault(wanted, stmt.target.at),
        fault_as(scope, wanted, &stmt.value),
    )
}

#[tactic(auto, unfolding(crate::specs::Faults::first_fault, crate::specs::Faults::earlier))]
fn target_fault(kind: Option<Kind>, at: u32) -> Option<TypeFault>
    ensures { result ≡ first_fault (reading_faults kind at) }
{
    match kind {
        Some(_) => None,
        None => Some(TypeFault::Unknown(at)),
    }
}
