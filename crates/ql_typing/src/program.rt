ghost use Rattle.std.specs.Prelude.{◌≡◌, [], IfOk, OnOk, map};
ghost use Rattle.ql_typing.specs.Faults.{each, earlier, first_fault, names_met, repeats};
ghost use Rattle.ql_typing.specs.Programs.{above, fields_known, init_faults, is_collection, may_begin, op_decl_faults, op_names, op_places, program_faults, txn_faults, type_faults};

use crate::contract::{contract_fault, ops_fault};
use crate::fault::{TypeFault, first};
use crate::kind::are_same;
use crate::limits::above_limit;
use crate::names::{meet, repeat_fault};
use crate::operation::op_decl_fault;
use crate::scope::Table;
use crate::word_set::WordSet;
use ql_base::{MAX_FIELDS, MAX_OPERATIONS, MAX_TRANSACTIONS, MAX_TYPES, NoMemory};
use ql_lang::{Field, InitNode, Kind, OpDecl, Program, TxnDecl, TypeDecl};
use std::alloc::Global;

fn collects(kind: Kind) -> bool
    ensures { result ≡ is_collection kind }
{
    matches!(kind, Kind::Set(_) | Kind::Map(_, _))
}

/// Whether a field of a kind may have this initial value.
fn begins(kind: Kind, init: &InitNode) -> bool
    ensures { result ≡ may_begin kind init.now }
{
    match init {
        InitNode::Int(_) => are_same(Kind::Int, kind),
        InitNode::Text(_) => are_same(Kind::Text, kind),
        InitNode::Bool(_) => are_same(Kind::Bool, kind),
        InitNode::Unit => are_same(Kind::Unit, kind),
        InitNode::Empty => collects(kind),
    }
}

#[tactic(auto, unfolding(crate::specs::Programs::init_faults, crate::specs::Faults::first_fault, crate::specs::Faults::earlier))]
fn init_fault(field: &Field) -> Option<TypeFault>
    ensures { result ≡ first_fault (init_faults field.now) }
{
    if begins(field.kind, &field.init.node) {
        None
    } else {
        Some(TypeFault::Kind(field.init.at))
    }
}

fn inits_fault(fields: &[Field]) -> Option<TypeFault>
    ensures { result ≡ first_fault (each init_faults fields.now) }
{
    let mut fault = None;
    for field in fields {
        fault = first(fault, init_fault(field));
    }
    fault
}

/// The first fault of a type, by the known operations.
fn type_fault(
    alloc: Global,
    declared: &TypeDecl,
    known: &WordSet,
) -> Result<Option<TypeFault>, NoMemory>
    ensures { IfOk result (λ fault. fault ≡ first_fault (type_faults known.now declared.now)) }
{
    let fields = declared.fields.items();
    let mut names = WordSet::new(alloc);
    let repeated = meet(&mut names, fields)?;
    let ops = ops_of_type_fault(alloc, declared, known, &mut names)?;
    let many = above_limit(fields, MAX_FIELDS);
    Ok(first(repeated, first(many, first(inits_fault(fields), ops))))
}

/// The first fault of a type's operations, by the known operations. `names` holds the names of the fields.
fn ops_of_type_fault(
    alloc: Global,
    declared: &TypeDecl,
    known: &WordSet,
    names: &mut WordSet,
) -> Result<Option<TypeFault>, NoMemory>
    ensures { IfOk result
        (λ fault. fault ≡ first_fault
        (each (op_decl_faults known.now names.old (fields_known declared.now.fields)) declared.now.ops)) }
{
    let fields = Table::of(alloc, declared.fields.items())?;
    op_decls_fault(alloc, declared.ops.items(), known, &fields, names)
}

fn op_decls_fault(
    alloc: Global,
    ops: &[OpDecl],
    known: &WordSet,
    fields: &Table,
    names: &mut WordSet,
) -> Result<Option<TypeFault>, NoMemory>
    ensures { IfOk result
        (λ fault. fault ≡ first_fault
        (each (op_decl_faults known.now names.old fields.now) ops.now)) }
{
    let mut fault = None;
    for op in ops {
        let here = op_decl_fault(alloc, op, known, fields, names)?;
        fault = first(fault, here);
    }
    Ok(fault)
}

fn types_fault(
    alloc: Global,
    types: &[TypeDecl],
    known: &WordSet,
) -> Result<Option<TypeFault>, NoMemory>
    ensures { IfOk result (λ fault. fault ≡ first_fault (each (type_faults known.now) types.now)) }
{
    let mut fault = None;
    for declared in types {
        let here = type_fault(alloc, declared, known)?;
        fault = first(fault, here);
    }
    Ok(fault)
}

/// The first fault of a transaction, by the known operations.
fn txn_fault(
    alloc: Global,
    declared: &TxnDecl,
    known: &WordSet,
) -> Result<Option<TypeFault>, NoMemory>
    ensures { IfOk result (λ fault. fault ≡ first_fault (txn_faults known.now declared.now)) }
{
    let uses = declared.uses.items();
    let repeated = repeat_fault(alloc, uses)?;
    let unknown = ops_fault(uses, Some(known));
    let contract = contract_fault(alloc, &declared.contract, Some(known), true)?;
    Ok(first(repeated, first(unknown, contract)))
}

fn txns_fault(
    alloc: Global,
    txns: &[TxnDecl],
    known: &WordSet,
) -> Result<Option<TypeFault>, NoMemory>
    ensures { IfOk result (λ fault. fault ≡ first_fault (each (txn_faults known.now) txns.now)) }
{
    let mut fault = None;
    for declared in txns {
        let here = txn_fault(alloc, declared, known)?;
        fault = first(fault, here);
    }
    Ok(fault)
}

/// The first fault of a program.
pub(crate) fn program_fault(alloc: Global, program: &Program) -> Result<Option<TypeFault>, NoMemory>
    ensures { IfOk result (λ fault. fault ≡ first_fault (program_faults program.now)) }
{
    let mut known = WordSet::new(alloc);
    let repeated = meet_ops(&mut known, program.types.items())?;
    rest_of_program_fault(alloc, program, &known, repeated)
}

/// The first fault of a program, by its operations and the fault of the first one that repeats another's name.
fn rest_of_program_fault(
    alloc: Global,
    program: &Program,
    known: &WordSet,
    repeated: Option<TypeFault>,
) -> Result<Option<TypeFault>, NoMemory>
    requires known { known.now ≡ names_met [] (op_names program.now.types) }
    requires repeated { repeated ≡ first_fault (repeats [] (op_names program.now.types)) }
    ensures { IfOk result (λ fault. fault ≡ first_fault (program_faults program.now)) }
{
    let types = program.types.items();
    let txns = program.txns.items();
    let named = names_fault(alloc, types, txns)?;
    let many = limits_fault(types, txns);
    let of_types = types_fault(alloc, types, known)?;
    let of_txns = txns_fault(alloc, txns, known)?;
    Ok(first(
        first(named, repeated),
        first(many, first(of_types, of_txns)),
    ))
}

/// Meets the names of all operations, and returns the fault of the first that repeats another.
fn meet_ops(names: &mut WordSet, types: &[TypeDecl]) -> Result<Option<TypeFault>, NoMemory>
    ensures names { OnOk result (names.new ≡ names_met names.old (op_names types.now)) }
    ensures fault { IfOk result
        (λ fault. fault ≡ first_fault (repeats names.old (op_names types.now))) }
{
    let mut fault = None;
    for declared in types {
        let twice = meet(names, declared.ops.items())?;
        fault = first(fault, twice);
    }
    Ok(fault)
}

/// The fault of the first type or transaction that repeats another's name.
fn names_fault(
    alloc: Global,
    types: &[TypeDecl],
    txns: &[TxnDecl],
) -> Result<Option<TypeFault>, NoMemory>
    ensures { IfOk result
        (λ fault. fault ≡ earlier (first_fault (repeats [] (map (λ t. t.name) types.now)))
        (first_fault (repeats [] (map (λ d. d.name) txns.now)))) }
{
    let of_types = repeat_fault(alloc, types)?;
    let of_txns = repeat_fault(alloc, txns)?;
    Ok(first(of_types, of_txns))
}

/// The fault of the first type, operation or transaction above its limit.
fn limits_fault(types: &[TypeDecl], txns: &[TxnDecl]) -> Option<TypeFault>
    ensures { result ≡ earlier (first_fault (above 16 (map (λ t. t.at) types.now)))
        (earlier (first_fault (above 32 (op_places types.now)))
        (first_fault (above 16 (map (λ d. d.at) txns.now)))) }
{
    first(
        above_limit(types, MAX_TYPES),
        first(
            ops_above_limit(types, MAX_OPERATIONS),
            above_limit(txns, MAX_TRANSACTIONS),
        ),
    )
}

/// The fault of the first operation above a limit of all types together.
fn ops_above_limit(types: &[TypeDecl], limit: usize) -> Option<TypeFault>
    ensures { result ≡ first_fault (above limit (op_places types.now)) }
{
    let mut left = limit;
    let mut fault = None;
    for declared in types {
        let ops = declared.ops.items();
        fault = first(fault, above_limit(ops, left));
        left = left.saturating_sub(ops.len());
    }
    fault
}
