ghost use Rattle.std.specs.Prelude.{◌≡◌, ◌<◌, ◌++◌, length, IfOk, OnOk};
ghost use Rattle.ql_base.specs.Ranges.{upto};
ghost use Rattle.ql_typing.specs.Operations.{all_ops};
ghost use Rattle.ql_typing.specs.Names.{op_name, txn_name};
ghost use Rattle.ql_report.specs.Levels.{levels_text, op_line, txn_line};

use ql_base::{DeclId, NoMemory, OpId, push_bytes};
use ql_levels::{Levels, level_word, txn_word};
use ql_typing::Typed;
use std::alloc::Global;

/// A line with the level of each operation in order, and then of each declared transaction.
pub fn print_levels(alloc: Global, t: &Typed, l: &Levels) -> Result<Vec<u8>, NoMemory>
    requires ops { length l.now.ops ≡ length (all_ops t.now.program.types) }
    requires txns { length l.now.txns ≡ length t.now.program.txns }
    ensures { IfOk result (λ text. text.items ≡ levels_text t.now.program l.now) }
{
    let mut text = Vec::new(alloc);
    push_ops(&mut text, t, l)?;
    push_txns(&mut text, t, l)?;
    Ok(text)
}

fn push_ops(out: &mut Vec<u8>, t: &Typed, l: &Levels) -> Result<(), NoMemory>
    requires { length l.now.ops ≡ length (all_ops t.now.program.types) }
    ensures { OnOk result
        (out.new.items ≡ out.old.items
        ++ upto (length (all_ops t.now.program.types)) (op_line t.now.program l.now)) }
{
    for o in 0..t.ops() {
        push_op(out, t, l, OpId(o))?;
    }
    Ok(())
}

fn push_op(out: &mut Vec<u8>, t: &Typed, l: &Levels, o: OpId) -> Result<(), NoMemory>
    requires op { o.0 < length (all_ops t.now.program.types) }
    requires level { o.0 < length l.now.ops }
    ensures { OnOk result (out.new.items ≡ out.old.items ++ op_line t.now.program l.now o.0) }
{
    push_bytes(out, b"op ")?;
    push_bytes(out, op_name(t, o))?;
    push_bytes(out, b" ")?;
    push_bytes(out, level_word(l.op(o)).as_bytes())?;
    push_bytes(out, b"\n")
}

/// The name of an operation.
pub(crate) fn op_name(t: &Typed, o: OpId) -> &[u8]
    requires { o.0 < length (all_ops t.now.program.types) }
    ensures { result.now ≡ op_name t.now.program o.0 }
{
    t.op(o).name.word.bytes()
}

fn push_txns(out: &mut Vec<u8>, t: &Typed, l: &Levels) -> Result<(), NoMemory>
    requires { length l.now.txns ≡ length t.now.program.txns }
    ensures { OnOk result
        (out.new.items ≡ out.old.items
        ++ upto (length t.now.program.txns) (txn_line t.now.program l.now)) }
{
    for d in 0..t.txns() {
        push_txn(out, t, l, DeclId(d))?;
    }
    Ok(())
}

fn push_txn(out: &mut Vec<u8>, t: &Typed, l: &Levels, d: DeclId) -> Result<(), NoMemory>
    requires txn { d.0 < length t.now.program.txns }
    requires level { d.0 < length l.now.txns }
    ensures { OnOk result (out.new.items ≡ out.old.items ++ txn_line t.now.program l.now d.0) }
{
    push_bytes(out, b"txn ")?;
    push_bytes(out, txn_name(t, d))?;
    push_bytes(out, b" ")?;
    push_bytes(out, txn_word(l.txn(d)).as_bytes())?;
    push_bytes(out, b"\n")
}

/// The name of a declared transaction.
pub(crate) fn txn_name(t: &Typed, d: DeclId) -> &[u8]
    requires { d.0 < length t.now.program.txns }
    ensures { result.now ≡ txn_name t.now.program d.0 }
{
    t.txn(d).name.word.bytes()
}
