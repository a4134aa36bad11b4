ghost use Rattle.std.specs.Prelude.{◌≡◌, ◌++◌, IfOk, OnOk, codes, map, option_map};
ghost use Rattle.std.specs.List.{concat};
ghost use Rattle.std.specs.Option.{option_copied};
ghost use Rattle.ql_lang.specs.ProgramSpelling.{
  apply_text,
  assignment_text,
  base_word,
  binding_text,
  body_text,
  effect_text,
  emission_text,
  field_text,
  init_text,
  kind_text,
  operation_text,
  param_text,
  program_text,
  replicated_text,
  signature_text,
  transaction_text,
  uses_text,
};
ghost use Rattle.ql_lang.specs.Programs.{
  assignment_of,
  binding_of,
  emission_of,
  operation_of,
  replicated_of,
  source_of,
  transaction_of,
};
ghost use Rattle.ql_lang.specs.Spelling.{listed};

use crate::name::Name;
use crate::operation::{Base, Bind, EmitDecl, Kind, OpDecl, Param, Stmt};
use crate::print::{push_contract, push_names};
use crate::print_expressions::{push_expression, push_quoted, truth_word};
use crate::program::{Field, InitNode, Program, TxnDecl, TypeDecl};
use ql_base::{NoMemory, push_all, push_bytes, push_number};
use std::alloc::Global;

/// The text of a whole source: its tree has this one spelling, whatever the source offsets. Each field, contract,
/// answer, emission and statement has its own line, indented by two blanks more than what it belongs to.
pub fn print_program(alloc: Global, program: &Program) -> Result<Vec<u8>, NoMemory>
    ensures { IfOk result (λ text. text.items ≡ program_text (source_of program.now)) }
{
    let mut out = Vec::new(alloc);
    push_types(&mut out, program.types.items())?;
    push_transactions(&mut out, program.txns.items())?;
    Ok(out)
}

fn push_types(out: &mut Vec<u8>, types: &[TypeDecl]) -> Result<(), NoMemory>
    ensures { OnOk result
        (out.new.items ≡ out.old.items
        ++ concat (map replicated_text (map replicated_of types.now))) }
{
    for decl in types {
        push_type(out, decl)?;
    }
    Ok(())
}

fn push_type(out: &mut Vec<u8>, decl: &TypeDecl) -> Result<(), NoMemory>
    ensures { OnOk result
        (out.new.items ≡ out.old.items ++ replicated_text (replicated_of decl.now)) }
{
    push_all(out, &[b"type ", decl.name.word.bytes(), b" {\n"])?;
    push_fields(out, decl.fields.items())?;
    push_operations(out, decl.ops.items())?;
    push_bytes(out, b"}\n")
}

fn push_fields(out: &mut Vec<u8>, fields: &[Field]) -> Result<(), NoMemory>
    ensures { OnOk result (out.new.items ≡ out.old.items ++ concat (map field_text fields.now)) }
{
    for field in fields {
        push_field(out, field)?;
    }
    Ok(())
}

fn push_field(out: &mut Vec<u8>, field: &Field) -> Result<(), NoMemory>
    ensures { OnOk result (out.new.items ≡ out.old.items ++ field_text field.now) }
{
    push_all(out, &[b"  state ", field.name.word.bytes(), b": "])?;
    push_kind(out, field.kind)?;
    push_bytes(out, b" = ")?;
    push_init(out, &field.init.node)?;
    push_bytes(out, b";\n")
}

fn push_kind(out: &mut Vec<u8>, kind: Kind) -> Result<(), NoMemory>
    ensures { OnOk result (out.new.items ≡ out.old.items ++ kind_text kind) }
{
    match kind {
        Kind::Unit => push_bytes(out, b"unit"),
        Kind::Int => push_bytes(out, b"int"),
        Kind::Bool => push_bytes(out, b"bool"),
        Kind::Text => push_bytes(out, b"text"),
        Kind::Set(element) => push_all(out, &[b"set(", base_word(element), b")"]),
        Kind::Map(key, value) => push_all(
            out,
            &[b"map(", base_word(key), b", ", base_word(value), b")"],
        ),
    }
}

fn base_word(base: Base) -> &'static [u8]
    ensures { result.now ≡ base_word base }
{
    match base {
        Base::Int => b"int",
        Base::Bool => b"bool",
        Base::Text => b"text",
    }
}

fn push_init(out: &mut Vec<u8>, init: &InitNode) -> Result<(), NoMemory>
    ensures { OnOk result (out.new.items ≡ out.old.items ++ init_text init.now) }
{
    match init {
        InitNode::Int(n) => push_number(out, *n),
        InitNode::Text(text) => push_quoted(out, text.items()),
        InitNode::Bool(b) => push_bytes(out, truth_word(*b)),
        InitNode::Unit => push_bytes(out, b"unit"),
        InitNode::Empty => push_bytes(out, b"empty"),
    }
}

fn push_operations(out: &mut Vec<u8>, ops: &[OpDecl]) -> Result<(), NoMemory>
    ensures { OnOk result
        (out.new.items ≡ out.old.items ++ concat (map operation_text (map operation_of ops.now))) }
{
    for op in ops {
        push_operation(out, op)?;
    }
    Ok(())
}

fn push_operation(out: &mut Vec<u8>, op: &OpDecl) -> Result<(), NoMemory>
    ensures { OnOk result (out.new.items ≡ out.old.items ++ operation_text (operation_of op.now)) }
{
    push_bytes(out, b"  op ")?;
    push_signature(out, op)?;
    push_bytes(out, b" {\n")?;
    push_body(out, op)?;
    push_bytes(out, b"  }\n")
}

// An operation's name, parameters and kind.
fn push_signature(out: &mut Vec<u8>, op: &OpDecl) -> Result<(), NoMemory>
    ensures { OnOk result (out.new.items ≡ out.old.items ++ signature_text (operation_of op.now)) }
{
    push_all(out, &[op.name.word.bytes(), b"("])?;
    push_params(out, op.params.items())?;
    push_bytes(out, b"): ")?;
    push_kind(out, op.kind)
}

// An operation's contract, answer and effect.
fn push_body(out: &mut Vec<u8>, op: &OpDecl) -> Result<(), NoMemory>
    ensures { OnOk result (out.new.items ≡ out.old.items ++ body_text (operation_of op.now)) }
{
    push_bytes(out, b"    contract ")?;
    push_contract(out, &op.contract)?;
    push_bytes(out, b";\n    answer ")?;
    push_expression(out, &op.answer)?;
    push_bytes(out, b";\n")?;
    push_effect(out, op.effect.as_ref())
}

// Parameters with a comma between them.
fn push_params(out: &mut Vec<u8>, params: &[Param]) -> Result<(), NoMemory>
    ensures { OnOk result
        (out.new.items ≡ out.old.items ++ listed (codes ", ") (map param_text params.now)) }
{
    let mut before: &[u8] = b"";
    for param in params {
        push_bytes(out, before)?;
        push_typed(out, &param.name, param.base)?;
        before = b", ";
    }
    Ok(())
}

// A name and the kind of its value.
fn push_typed(out: &mut Vec<u8>, name: &Name, base: Base) -> Result<(), NoMemory>
    ensures { OnOk result
        (out.new.items ≡ out.old.items ++ (name.now.word ++ (codes ": ") ++ base_word base)) }
{
    push_all(out, &[name.word.bytes(), b": "])?;
    push_bytes(out, base_word(base))
}

fn push_effect(out: &mut Vec<u8>, effect: Option<&EmitDecl>) -> Result<(), NoMemory>
    ensures { OnOk result
        (out.new.items ≡ out.old.items
        ++ effect_text (option_map emission_of (option_copied effect.entry))) }
{
    match effect {
        Some(effect) => push_emission(out, effect),
        None => Ok(()),
    }
}

fn push_emission(out: &mut Vec<u8>, effect: &EmitDecl) -> Result<(), NoMemory>
    ensures { OnOk result
        (out.new.items ≡ out.old.items ++ emission_text (emission_of effect.now)) }
{
    push_bytes(out, b"    emit ")?;
    push_bindings(out, effect.binds.items())?;
    push_bytes(out, b" when ")?;
    push_expression(out, &effect.test)?;
    push_bytes(out, b";\n")?;
    push_apply(out, effect.stmts.items())
}

// Emitted values with a comma between them.
fn push_bindings(out: &mut Vec<u8>, binds: &[Bind]) -> Result<(), NoMemory>
    ensures { OnOk result
        (out.new.items ≡ out.old.items
        ++ listed (codes ", ") (map binding_text (map binding_of binds.now))) }
{
    let mut before: &[u8] = b"";
    for bind in binds {
        push_bytes(out, before)?;
        push_binding(out, bind)?;
        before = b", ";
    }
    Ok(())
}

fn push_binding(out: &mut Vec<u8>, bind: &Bind) -> Result<(), NoMemory>
    ensures { OnOk result (out.new.items ≡ out.old.items ++ binding_text (binding_of bind.now)) }
{
    push_typed(out, &bind.name, bind.base)?;
    push_bytes(out, b" = ")?;
    push_expression(out, &bind.value)
}

// The statements between their braces.
fn push_apply(out: &mut Vec<u8>, stmts: &[Stmt]) -> Result<(), NoMemory>
    ensures { OnOk result
        (out.new.items ≡ out.old.items ++ apply_text (map assignment_of stmts.now)) }
{
    push_bytes(out, b"    apply {\n")?;
    push_statements(out, stmts)?;
    push_bytes(out, b"    }\n")
}

fn push_statements(out: &mut Vec<u8>, stmts: &[Stmt]) -> Result<(), NoMemory>
    ensures { OnOk result
        (out.new.items ≡ out.old.items
        ++ concat (map assignment_text (map assignment_of stmts.now))) }
{
    for stmt in stmts {
        push_statement(out, stmt)?;
    }
    Ok(())
}

fn push_statement(out: &mut Vec<u8>, stmt: &Stmt) -> Result<(), NoMemory>
    ensures { OnOk result
        (out.new.items ≡ out.old.items ++ assignment_text (assignment_of stmt.now)) }
{
    push_all(out, &[b"      ", stmt.target.word.bytes(), b" := "])?;
    push_expression(out, &stmt.value)?;
    push_bytes(out, b";\n")
}

fn push_transactions(out: &mut Vec<u8>, txns: &[TxnDecl]) -> Result<(), NoMemory>
    ensures { OnOk result
        (out.new.items ≡ out.old.items
        ++ concat (map transaction_text (map transaction_of txns.now))) }
{
    for txn in txns {
        push_transaction(out, txn)?;
    }
    Ok(())
}

fn push_transaction(out: &mut Vec<u8>, txn: &TxnDecl) -> Result<(), NoMemory>
    ensures { OnOk result
        (out.new.items ≡ out.old.items ++ transaction_text (transaction_of txn.now)) }
{
    push_all(out, &[b"transaction ", txn.name.word.bytes(), b" {\n"])?;
    push_uses(out, txn.uses.items())?;
    push_bytes(out, b"  contract ")?;
    push_contract(out, &txn.contract)?;
    push_bytes(out, b";\n}\n")
}

fn push_uses(out: &mut Vec<u8>, names: &[Name]) -> Result<(), NoMemory>
    ensures { OnOk result (out.new.items ≡ out.old.items ++ uses_text names.now) }
{
    push_bytes(out, b"  uses ")?;
    push_names(out, names, b", ")?;
    push_bytes(out, b";\n")
}
