ghost use Rattle.std.specs.Prelude.{◌≡◌, ◌<◌, ◌≤◌, ◌^◌, [], IfErr, IfOk, IfSome, OnOk, Some, length, map, option_map, slice_get};
ghost use Rattle.ql_lang.specs.Formulas.{resolved_of};
ghost use Rattle.std.specs.List.{list_any};
ghost use Rattle.std.specs.Str.{bytes_eq};
ghost use Rattle.ql_typing.specs.Faults.{IsRefusal, ReportsFirst, each, names_met};
ghost use Rattle.ql_typing.specs.Lookups.{txn_place, type_place};
ghost use Rattle.ql_typing.specs.Operations.{all_ops, op_contract, op_contracts, op_kinds, op_place, op_words, txn_contract, txn_contracts, uses_op};
ghost use Rattle.ql_typing.specs.Programs.{op_names, program_faults, txn_faults, type_faults};
ghost use Rattle.ql_typing.specs.WellFormed.{IsOpContract, IsTxnContract};

use crate::build::number_each;
use crate::fault::TypeFault;
use crate::formulas::{formulas_of_ops, formulas_of_txns};
use crate::lookup::{find_kind, find_op, find_txn, find_type};
use crate::program::program_fault;
use ql_base::{DeclId, Names, NoMemory, OpId, TypeId};
use ql_lang::{Formula, Name, OpDecl, Program, TxnDecl, TypeDecl};
use std::alloc::Global;

/// A well-typed program. Its types, operations and transactions have numbers from 0, in the order of the source;
/// operations are counted over all types.
pub struct Typed {
    pub program: Program,
    ops: Names,
    op_formulas: Vec<Formula>,
    txn_formulas: Vec<Formula>,
    pub ghost well_typed: { ∥ program_faults program ≡ [] ∥₁ },
    ghost named: { ops ≡ op_words program.types },
    ghost of_ops: { ∥ map resolved_of op_formulas.items ≡ op_contracts program.types ∥₁ },
    ghost of_txns: { ∥ map resolved_of txn_formulas.items ≡ txn_contracts program ∥₁ },
}

// Written out, so that a crate above proves one call for it.
impl Drop for Typed {
    fn drop(self) {
        let Typed {
            program: _,
            ops: _,
            op_formulas: _,
            txn_formulas: _,
        } = self;
    }
}

/// The program as a well-typed one, or its first fault: the one at the lowest source offset, and there of the lowest
/// rule.
#[tactic(auto, unfolding(crate::specs::Faults::IsRefusal, crate::specs::Faults::ReportsFirst))]
pub fn typecheck(alloc: Global, program: Program) -> Result<Typed, TypeFault>
    ensures typed { OnOk result (program_faults program ≡ []) }
    ensures same { IfOk result (λ typed. typed.program ≡ program) }
    ensures refused { IfErr result (IsRefusal (program_faults program)) }
    ensures first { IfErr result (ReportsFirst (program_faults program)) }
{
    let Ok(fault) = program_fault(alloc, &program) else {
        return Err(TypeFault::NoMemory);
    };
    match fault {
        Some(fault) => Err(fault),
        None => match number(alloc, program) {
            Ok(typed) => Ok(typed),
            Err(NoMemory) => Err(TypeFault::NoMemory),
        },
    }
}

/// Numbers the operations of a program without faults, and resolves its contracts.
fn number(alloc: Global, program: Program) -> Result<Typed, NoMemory>
    requires { program_faults program ≡ [] }
    ensures { IfOk result (λ typed. typed.program ≡ program) }
{
    let ops = number_ops(alloc, program.types.items())?;
    let formulas = resolve_all(alloc, &program, &ops)?;
    Ok(Typed {
        program,
        ops,
        op_formulas: formulas.of_ops,
        txn_formulas: formulas.of_txns,
    })
}

/// The contracts of a program, with their names resolved.
#[derive(Drop)]
struct Formulas {
    of_ops: Vec<Formula>,
    of_txns: Vec<Formula>,
}

/// Resolves the contracts of a program, by the names of its operations.
fn resolve_all(alloc: Global, program: &Program, ops: &Names) -> Result<Formulas, NoMemory>
    requires ops { each (type_faults ops.now) program.now.types ≡ [] }
    requires txns { each (txn_faults ops.now) program.now.txns ≡ [] }
    ensures of_ops { IfOk result
        (λ formulas. map resolved_of formulas.of_ops.items
        ≡ map (op_contract ops.now) (all_ops program.now.types)) }
    ensures of_txns { IfOk result
        (λ formulas. map resolved_of formulas.of_txns.items
        ≡ map (txn_contract ops.now) program.now.txns) }
{
    let of_ops = formulas_of_ops(alloc, program.types.items(), ops)?;
    let of_txns = formulas_of_txns(alloc, program.txns.items(), ops)?;
    Ok(Formulas { of_ops, of_txns })
}

/// The names of the operations of types, by their numbers.
fn number_ops(alloc: Global, types: &[TypeDecl]) -> Result<Names, NoMemory>
    requires { length (names_met [] (op_names types.now)) < 2 ^ 32 }
    ensures { IfOk result (λ ops. ops ≡ names_met [] (op_names types.now)) }
{
    let mut ops = Names::new(alloc);
    for declared in types {
        number_each(declared.ops.items(), &mut ops)?;
    }
    Ok(ops)
}

impl Typed {
    /// How many operations there are.
    pub fn ops(&self) -> u32
        ensures count { result ≡ length (all_ops self.now.program.types) }
        ensures few { result ≤ 32 }
    {
        self.ops.len()
    }

    /// The operation with a number.
    pub fn op(&self, o: OpId) -> &OpDecl
        requires { o.0 < length (all_ops self.now.program.types) }
        ensures { slice_get (all_ops self.now.program.types) o.0 ≡ Some result.now }
    {
        find_op(self.program.types.items(), o.0 as usize).unwrap()
    }

    /// The type that an operation belongs to.
    pub fn kind_of(&self, o: OpId) -> TypeId
        requires { o.0 < length (all_ops self.now.program.types) }
        ensures kind { slice_get (op_kinds self.now.program.types) o.0 ≡ Some result.0 }
        ensures within { result.0 < length self.now.program.types }
    {
        let kind = find_kind(self.program.types.items(), o.0 as usize).unwrap();
        TypeId(kind as u32)
    }

    /// The operation with a name.
    pub fn op_named(&self, w: &[u8]) -> Option<OpId>
        ensures place { option_map (λ o. o.0) result ≡ op_place self.now.program.types w.now }
        ensures within { IfSome result (λ o. o.0 < length (all_ops self.now.program.types)) }
    {
        let number = self.ops.find(w)?;
        Some(OpId(number))
    }

    /// The contract of an operation, with its names resolved.
    pub fn op_formula(&self, o: OpId) -> &Formula
        requires { o.0 < length (all_ops self.now.program.types) }
        ensures resolved { slice_get (op_contracts self.now.program.types) o.0
            ≡ Some (resolved_of result.now) }
        ensures well_formed { IsOpContract (length (all_ops self.now.program.types))
            (resolved_of result.now) }
    {
        &self.op_formulas[o.0 as usize]
    }

    /// How many types there are.
    pub fn types(&self) -> u32
        ensures count { result ≡ length self.now.program.types }
        ensures few { result ≤ 16 }
    {
        self.program.types.items().len() as u32
    }

    pub fn type_decl(&self, t: TypeId) -> &TypeDecl
        requires { t.0 < length self.now.program.types }
        ensures { slice_get self.now.program.types t.0 ≡ Some result.now }
    {
        &self.program.types.items()[t.0 as usize]
    }

    /// The type with a name.
    pub fn type_named(&self, w: &[u8]) -> Option<TypeId>
        ensures place { option_map (λ t. t.0) result ≡ type_place self.now.program.types w.now }
        ensures within { IfSome result (λ t. t.0 < length self.now.program.types) }
    {
        let place = find_type(self.program.types.items(), w)?;
        Some(TypeId(place as u32))
    }

    /// How many transactions there are.
    pub fn txns(&self) -> u32
        ensures count { result ≡ length self.now.program.txns }
        ensures few { result ≤ 16 }
    {
        self.program.txns.items().len() as u32
    }

    pub fn txn(&self, d: DeclId) -> &TxnDecl
        requires { d.0 < length self.now.program.txns }
        ensures { slice_get self.now.program.txns d.0 ≡ Some result.now }
    {
        &self.program.txns.items()[d.0 as usize]
    }

    /// The transaction with a name.
    pub fn txn_named(&self, w: &[u8]) -> Option<DeclId>
        ensures place { option_map (λ d. d.0) result ≡ txn_place self.now.program.txns w.now }
        ensures within { IfSome result (λ d. d.0 < length self.now.program.txns) }
    {
        let place = find_txn(self.program.txns.items(), w)?;
        Some(DeclId(place as u32))
    }

    /// The contract of a transaction, with its names resolved.
    pub fn txn_formula(&self, d: DeclId) -> &Formula
        requires { d.0 < length self.now.program.txns }
        ensures resolved { slice_get (txn_contracts self.now.program) d.0
            ≡ Some (resolved_of result.now) }
        ensures well_formed { IsTxnContract (length (all_ops self.now.program.types))
            (resolved_of result.now) }
    {
        &self.txn_formulas[d.0 as usize]
    }

    /// Whether a transaction uses an operation.
    pub fn uses(&self, d: DeclId, o: OpId) -> bool
        requires txn { d.0 < length self.now.program.txns }
        requires op { o.0 < length (all_ops self.now.program.types) }
        ensures { result ≡ uses_op self.now.program d.0 o.0 }
    {
        let op = self.op(o);
        has_word(self.txn(d).uses.items(), op.name.word.bytes())
    }
}

/// Whether one of the names is the word `w`.
fn has_word(names: &[Name], w: &[u8]) -> bool
    ensures { result ≡ list_any (λ n. bytes_eq w.now n.word) names.now }
{
    names.iter().any(|name| w == name.word.bytes())
}
