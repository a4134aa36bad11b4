// Why a program has no levels.
ghost use Rattle.std.specs.Prelude.{◌≡◌, ◌<◌, IfOk, length};
ghost use Rattle.ql_typing.specs.Operations.{all_ops};
ghost use Rattle.ql_report.specs.Refusals.{none_op_text, none_txn_text, op_reported, strong_text, txn_reported};
ghost use Rattle.ql_report.specs.Report.{reported_of};

use crate::atoms::{Report, push_atoms};
use crate::levels::{op_name, txn_name};
use ql_atoms::Shape;
use ql_base::{DeclId, NoMemory, OpId, push_bytes};
use ql_cnf::Assignment;
use ql_typing::Typed;
use std::alloc::Global;

/// Reports that no level is enough for an operation's contract, with the true atoms of an assignment.
pub fn print_none_op(
    alloc: Global,
    t: &Typed,
    o: OpId,
    assignment: &Assignment,
) -> Result<Vec<u8>, NoMemory>
    requires { o.0 < length (all_ops t.now.program.types) }
    ensures { IfOk result (λ text. text.items ≡ none_op_text t.now.program o.0 assignment.now) }
{
    let mut text = Vec::from_slice(alloc, b"none op ")?;
    push_bytes(&mut text, op_name(t, o))?;
    push_bytes(&mut text, b"\n")?;
    push_atoms(&mut text, &op_report(t, o, assignment))?;
    Ok(text)
}

fn op_report<'a>(t: &'a Typed, o: OpId, assignment: &'a Assignment) -> Report<'a>
    requires { o.0 < length (all_ops t.now.program.types) }
    ensures reported { reported_of result ≡ op_reported t.now.program o.0 assignment.now }
    ensures operations { result.shape.operations ≡ length (all_ops result.typed.now.program.types) }
{
    let constants = t.op_formula(o).vars.items().len() as u32 + 1;
    Report {
        typed: t,
        vars: t.op(o).contract.vars.items(),
        shape: Shape {
            constants,
            operations: t.ops(),
        },
        values: assignment.items(),
    }
}

/// Reports that no level is enough for a declared transaction's contract, with the true atoms of an assignment.
pub fn print_none_txn(
    alloc: Global,
    t: &Typed,
    d: DeclId,
    assignment: &Assignment,
) -> Result<Vec<u8>, NoMemory>
    requires { d.0 < length t.now.program.txns }
    ensures { IfOk result (λ text. text.items ≡ none_txn_text t.now.program d.0 assignment.now) }
{
    let mut text = Vec::from_slice(alloc, b"none txn ")?;
    push_bytes(&mut text, txn_name(t, d))?;
    push_bytes(&mut text, b"\n")?;
    push_atoms(&mut text, &txn_report(t, d, assignment))?;
    Ok(text)
}

fn txn_report<'a>(t: &'a Typed, d: DeclId, assignment: &'a Assignment) -> Report<'a>
    requires { d.0 < length t.now.program.txns }
    ensures reported { reported_of result ≡ txn_reported t.now.program d.0 assignment.now }
    ensures operations { result.shape.operations ≡ length (all_ops result.typed.now.program.types) }
{
    let constants = t.txn_formula(d).vars.items().len() as u32;
    Report {
        typed: t,
        vars: t.txn(d).contract.vars.items(),
        shape: Shape {
            constants,
            operations: t.ops(),
        },
        values: assignment.items(),
    }
}

/// Reports that a declared transaction uses a strong operation.
pub fn print_strong_use(alloc: Global, t: &Typed, d: DeclId, o: OpId) -> Result<Vec<u8>, NoMemory>
    requires txn { d.0 < length t.now.program.txns }
    requires op { o.0 < length (all_ops t.now.program.types) }
    ensures { IfOk result (λ text. text.items ≡ strong_text t.now.program d.0 o.0) }
{
    let mut text = Vec::from_slice(alloc, b"strong ")?;
    push_bytes(&mut text, op_name(t, o))?;
    push_bytes(&mut text, b" in ")?;
    push_bytes(&mut text, txn_name(t, d))?;
    push_bytes(&mut text, b"\n")?;
    Ok(text)
}
