ghost use Rattle.std.specs.Prelude.{◌≡◌};
ghost use Rattle.ql_typing.specs.Faults.{first_fault, unless};
ghost use Rattle.ql_typing.specs.Kinds.{base_only, chosen_kind, combined_kind, count_faults, gives_of, head_faults, is_base, kept_kind, left_faults, meets, mismatch, operand_of, same_base, same_kind, signature_at, unfit};

use crate::fault::TypeFault;
use crate::function::{Function, Signature};
use ql_lang::{Base, BinOp, Kind, Name};

fn are_same_base(a: Base, b: Base) -> bool
    ensures { result ≡ same_base a b }
{
    match (a, b) {
        (Base::Int, Base::Int) | (Base::Bool, Base::Bool) | (Base::Text, Base::Text) => true,
        _ => false,
    }
}

pub(crate) fn are_same(a: Kind, b: Kind) -> bool
    ensures { result ≡ same_kind a b }
{
    match (a, b) {
        (Kind::Unit, Kind::Unit)
        | (Kind::Int, Kind::Int)
        | (Kind::Bool, Kind::Bool)
        | (Kind::Text, Kind::Text) => true,
        (Kind::Set(b), Kind::Set(c)) => are_same_base(b, c),
        (Kind::Map(b, c), Kind::Map(d, e)) => are_same_base(b, d) && are_same_base(c, e),
        _ => false,
    }
}

/// Whether values of a kind can be compared by `==`.
pub fn is_basic(kind: Kind) -> bool
    ensures { result ≡ is_base kind }
{
    matches!(kind, Kind::Int | Kind::Bool | Kind::Text)
}

/// Whether there is a kind and it is the expected one.
pub(crate) fn fits(wanted: Option<Kind>, kind: Option<Kind>) -> bool
    ensures { result ≡ meets wanted kind }
{
    match (wanted, kind) {
        (Some(wanted), Some(kind)) => are_same(kind, wanted),
        _ => false,
    }
}

/// The fault of another kind than expected, if both are known.
#[tactic(auto, unfolding(crate::specs::Faults::first_fault, crate::specs::Faults::earlier))]
pub(crate) fn misfit(wanted: Option<Kind>, at: u32, kind: Option<Kind>) -> Option<TypeFault>
    ensures { result ≡ first_fault (mismatch wanted at kind) }
{
    match (wanted, kind) {
        (Some(wanted), Some(kind)) => {
            if are_same(kind, wanted) {
                None
            } else {
                Some(TypeFault::Kind(at))
            }
        }
        _ => None,
    }
}

fn basic(kind: Option<Kind>) -> Option<Kind>
    ensures { result ≡ base_only kind }
{
    match kind {
        Some(kind) => { if is_basic(kind) { Some(kind) } else { None } }
        None => None,
    }
}

/// The kind expected of both operands, by that of the left one.
pub(crate) fn operand_kind(op: BinOp, left: Option<Kind>) -> Option<Kind>
    ensures { result ≡ operand_of op left }
{
    match op {
        BinOp::Or | BinOp::And => Some(Kind::Bool),
        BinOp::Eq | BinOp::Ne => basic(left),
        BinOp::Lt | BinOp::Le | BinOp::Gt | BinOp::Ge | BinOp::Add | BinOp::Sub | BinOp::Mul =>
            Some(Kind::Int),
    }
}

#[tactic(auto, unfolding(crate::specs::Faults::first_fault, crate::specs::Faults::earlier))]
fn not_basic(at: u32, kind: Kind) -> Option<TypeFault>
    ensures { result ≡ first_fault (unless (is_base kind) (TypeFault.Kind at)) }
{
    if is_basic(kind) {
        None
    } else {
        Some(TypeFault::Kind(at))
    }
}

/// The fault of the left operand's kind: equality is of base kinds.
#[tactic(auto, unfolding(crate::specs::Faults::first_fault, crate::specs::Faults::earlier))]
pub(crate) fn left_misfit(op: BinOp, at: u32, kind: Option<Kind>) -> Option<TypeFault>
    ensures { result ≡ first_fault (left_faults op at kind) }
{
    match (op, kind) {
        (BinOp::Eq | BinOp::Ne, Some(kind)) => not_basic(at, kind),
        (BinOp::Eq | BinOp::Ne, None) => None,
        (op, kind) => misfit(operand_kind(op, kind), at, kind),
    }
}

/// The kind of an operator's result.
pub fn operator_gives(op: BinOp) -> Kind
    ensures { result ≡ gives_of op }
{
    match op {
        BinOp::Add | BinOp::Sub | BinOp::Mul => Kind::Int,
        BinOp::Or
        | BinOp::And
        | BinOp::Eq
        | BinOp::Ne
        | BinOp::Lt
        | BinOp::Le
        | BinOp::Gt
        | BinOp::Ge => Kind::Bool,
    }
}

/// The kind of two operands with an operator.
pub(crate) fn combine(op: BinOp, left: Option<Kind>, right: Option<Kind>) -> Option<Kind>
    ensures { result ≡ combined_kind op left right }
{
    let wanted = operand_kind(op, left);
    if fits(wanted, left) && fits(wanted, right) {
        Some(operator_gives(op))
    } else {
        None
    }
}

/// The kind of an operator whose result has the kind that it expects.
pub(crate) fn keep(wanted: Kind, kind: Option<Kind>) -> Option<Kind>
    ensures { result ≡ kept_kind wanted kind }
{
    if fits(Some(wanted), kind) {
        Some(wanted)
    } else {
        None
    }
}

/// The kind of a choice by a test.
pub(crate) fn choose(test: Option<Kind>, left: Option<Kind>, right: Option<Kind>) -> Option<Kind>
    ensures { result ≡ chosen_kind test left right }
{
    if fits(Some(Kind::Bool), test) && fits(left, right) {
        left
    } else {
        None
    }
}

/// The signature of a function with `count` arguments, by the kind of its first.
pub(crate) fn find_signature(
    function: Option<Function>,
    count: usize,
    first: Option<Kind>,
) -> Option<Signature>
    ensures { result ≡ signature_at function count first }
{
    match (function, first) {
        (Some(function), Some(first)) => {
            if function.arity() == count {
                function.signature(first)
            } else {
                None
            }
        }
        _ => None,
    }
}

/// The fault of a call by its name, its count of arguments and the first of them.
#[tactic(auto, unfolding(crate::specs::Faults::first_fault, crate::specs::Faults::earlier))]
pub(crate) fn head_fault(
    at: u32,
    name: &Name,
    function: Option<Function>,
    count: usize,
    first_at: u32,
    first: Option<Kind>,
) -> Option<TypeFault>
    ensures { result ≡ first_fault (head_faults at name.now function count first_at first) }
{
    match (function, first) {
        (None, _) => Some(TypeFault::Unknown(name.at)),
        (Some(function), None) => {
            if function.arity() == count {
                None
            } else {
                Some(TypeFault::Kind(at))
            }
        }
        (Some(function), Some(first)) => {
            if function.arity() == count {
                unfit_fault(first_at, function.signature(first))
            } else {
                Some(TypeFault::Kind(at))
            }
        }
    }
}

#[tactic(auto, unfolding(crate::specs::Faults::first_fault, crate::specs::Faults::earlier))]
fn unfit_fault(at: u32, signature: Option<Signature>) -> Option<TypeFault>
    ensures { result ≡ first_fault (unfit at signature) }
{
    match signature {
        Some(_) => None,
        None => Some(TypeFault::Kind(at)),
    }
}

/// The fault of a call with a number of arguments that no function takes.
#[tactic(auto, unfolding(crate::specs::Faults::first_fault, crate::specs::Faults::earlier))]
pub(crate) fn count_fault(at: u32, name: &Name, function: Option<Function>) -> Option<TypeFault>
    ensures { result ≡ first_fault (count_faults at name.now function) }
{
    match function {
        Some(_) => Some(TypeFault::Kind(at)),
        None => Some(TypeFault::Unknown(name.at)),
    }
}
