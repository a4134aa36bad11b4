// Variables that have the names of operations.
ghost use Rattle.std.specs.Prelude.{◌≡◌, ◌<◌, ◌+◌, [], IfOk, MatchBool, MatchOption, OnOk, Some, length, slice_get};
ghost use Rattle.std.specs.Option.{option_map};
ghost use Rattle.ql_base.specs.declared.ids.OpId.{OpId};
ghost use Rattle.ql_typing.specs.Operations.{op_place};
ghost use Rattle.ql_warnings.specs.Kept.{AreNameWarnings};
ghost use Rattle.ql_warnings.specs.Warnings.{IsNamedAs};

use crate::warning::Warning;
use ql_base::{NoMemory, OpId};
use ql_lang::Var;
use ql_typing::Typed;
use std::alloc::Global;

/// A warning for each variable that stands for any effect and has an operation's name.
pub(crate) fn named(alloc: Global, t: &Typed, vars: &[Var]) -> Result<Vec<Warning>, NoMemory>
    ensures { IfOk result
        (λ found. AreNameWarnings t.now.program vars.now (length vars.now) found.items) }
{
    let mut found = Vec::new(alloc);
    for k in 0..vars.len() {
        push_named(&mut found, t, vars, k)?;
    }
    Ok(found)
}

// Appends the warning about a variable, if there is one.
fn push_named(found: &mut Vec<Warning>, t: &Typed, vars: &[Var], k: usize) -> Result<(), NoMemory>
    requires { k < length vars.now }
    ensures { OnOk result
        (AreNameWarnings t.now.program vars.now k found.old.items
        → AreNameWarnings t.now.program vars.now (k + 1) found.new.items) }
{
    match named_as(t, vars, k) {
        Some(op) => {
            found.push(Warning::NamedAsOperation { variable: k, op })?;
            Ok(())
        }
        None => Ok(()),
    }
}

// The operation whose name a variable has, if the variable stands for any effect.
fn named_as(t: &Typed, vars: &[Var], k: usize) -> Option<OpId>
    requires { k < length vars.now }
    ensures { MatchOption result ((op : OpId) → IsNamedAs t.now.program vars.now k op → ⊥)
        (IsNamedAs t.now.program vars.now k) }
{
    let var = var_at(vars, k);
    if !is_free(var) {
        return None;
    }
    op_of(t, var)
}

fn var_at(vars: &[Var], k: usize) -> &Var
    requires { k < length vars.now }
    ensures { slice_get vars.now k ≡ Some result.now }
{
    &vars[k]
}

// Whether a variable stands for any effect.
fn is_free(var: &Var) -> bool
    ensures { MatchBool result (var.now.ops ≡ []) (var.now.ops ≡ [] → ⊥) }
{
    var.ops.items().is_empty()
}

// The operation that has a variable's name.
fn op_of(t: &Typed, var: &Var) -> Option<OpId>
    ensures { option_map (λ op. op.0) result ≡ op_place t.now.program.types var.now.name.word }
{
    t.op_named(var.name.word.bytes())
}
