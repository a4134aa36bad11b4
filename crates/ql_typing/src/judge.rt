ghost use Rattle.std.specs.Prelude.{◌≡◌, ◌&&◌, Some, None};
ghost use Rattle.ql_lang.specs.Expressions.{Calling, expression_of, node_of, operands_of};
ghost use Rattle.ql_typing.specs.Faults.{earlier, first_fault};
ghost use Rattle.ql_typing.specs.Kinds.{begins_at, chosen_kind, combined_kind, faults_as, faults_of, head_faults, kept_kind, kind_of, kind_where, left_faults, meets, mismatch, operand_faults, operand_of, reading_faults, result_of, second_of, signature_at, third_of};

use crate::fault::{TypeFault, first};
use crate::function::{Function, Signature, find_function};
use crate::kind::{
    choose, combine, count_fault, find_signature, fits, head_fault, keep, left_misfit, misfit,
    operand_kind,
};
use crate::scope::Scope;
use ql_lang::{BinOp, Expr, ExprNode, Kind, Name};

/// What is known about an expression: its source offset, its kind if it has one, and its first fault.
#[derive(Clone, Copy)]
pub(crate) struct Judged {
    pub at: u32,
    pub kind: Option<Kind>,
    pub fault: Option<TypeFault>,
}

/// Finds the kind and the first fault of an expression, by the names in scope.
pub(crate) fn judge(scope: &Scope<'_>, e: &Expr) -> Judged
    ensures at { result.at ≡ begins_at (expression_of e.now) }
    ensures kind { result.kind ≡ kind_of scope.now (expression_of e.now) }
    ensures fault { result.fault ≡ first_fault (faults_of scope.now (expression_of e.now)) }
{
    judge_node(scope, e.at, &e.node)
}

/// The first fault of an expression of which a kind is expected.
pub(crate) fn fault_as(scope: &Scope<'_>, wanted: Option<Kind>, e: &Expr) -> Option<TypeFault>
    ensures { result ≡ first_fault (faults_as scope.now wanted (expression_of e.now)) }
{
    let judged = judge(scope, e);
    first(judged.fault, misfit(wanted, judged.at, judged.kind))
}

#[cycle(judge)]
#[tactic(auto, unfolding(ql_lang::specs::Expressions::node_of, crate::specs::Kinds::kind_of, crate::specs::Kinds::faults_of, crate::specs::Faults::first_fault, crate::specs::Faults::earlier), using(crate::proofs::FirstFault::first_append))]
fn judge_node(scope: &Scope<'_>, at: u32, node: &ExprNode) -> Judged
    ensures at { result.at ≡ begins_at (node_of at node.now) }
    ensures kind { result.kind ≡ kind_of scope.now (node_of at node.now) }
    ensures fault { result.fault ≡ first_fault (faults_of scope.now (node_of at node.now)) }
{
    match node {
        ExprNode::Int(_) => sound(at, Kind::Int),
        ExprNode::Text(_) => sound(at, Kind::Text),
        ExprNode::Bool(_) => sound(at, Kind::Bool),
        ExprNode::Unit => sound(at, Kind::Unit),
        ExprNode::Var(name) => read(at, name, scope.find(&name.word)),
        ExprNode::Call(name, args) => judge_call(scope, at, name, args.items()),
        ExprNode::If(test, left, right) => {
            let test = judge_node(scope, test.at, &test.node);
            let left = judge_node(scope, left.at, &left.node);
            let right = judge_node(scope, right.at, &right.node);
            choice(at, test, left, right)
        }
        ExprNode::Binary(op, left, right) => {
            let left = judge_node(scope, left.at, &left.node);
            let right = judge_node(scope, right.at, &right.node);
            combination(at, *op, left, right)
        }
        ExprNode::Not(operand) => {
            let operand = judge_node(scope, operand.at, &operand.node);
            keeping(at, Kind::Bool, operand)
        }
        ExprNode::Neg(operand) => {
            let operand = judge_node(scope, operand.at, &operand.node);
            keeping(at, Kind::Int, operand)
        }
    }
}

#[cycle(judge)]
fn judge_call(scope: &Scope<'_>, at: u32, name: &Name, args: &[Expr]) -> Judged
    ensures at { result.at ≡ at }
    ensures kind { result.kind ≡ kind_of scope.now (Calling at name.now (operands_of args.now)) }
    ensures fault { result.fault
        ≡ first_fault (faults_of scope.now (Calling at name.now (operands_of args.now))) }
{
    let function = find_function(name.word.bytes());
    if args.len() == 1 {
        let a = &args[0];
        let a = judge_node(scope, a.at, &a.node);
        call_of_one(at, name, function, a)
    } else if args.len() == 2 {
        let a = &args[0];
        let b = &args[1];
        let a = judge_node(scope, a.at, &a.node);
        let b = judge_node(scope, b.at, &b.node);
        call_of_two(at, name, function, a, b)
    } else if args.len() == 3 {
        let a = &args[0];
        let b = &args[1];
        let c = &args[2];
        let a = judge_node(scope, a.at, &a.node);
        let b = judge_node(scope, b.at, &b.node);
        let c = judge_node(scope, c.at, &c.node);
        call_of_three(at, name, function, a, b, c)
    } else {
        let inside = faults_inside(scope, args);
        Judged {
            at,
            kind: None,
            fault: first(inside, count_fault(at, name, function)),
        }
    }
}

/// The first fault inside the arguments of a call.
#[cycle(judge)]
fn faults_inside(scope: &Scope<'_>, args: &[Expr]) -> Option<TypeFault>
    ensures { result ≡ first_fault (operand_faults scope.now (operands_of args.now)) }
{
    let mut fault = None;
    for arg in args {
        let judged = judge_node(scope, arg.at, &arg.node);
        fault = first(fault, judged.fault);
    }
    fault
}

fn sound(at: u32, kind: Kind) -> Judged
    ensures { result ≡ record { at = at; kind = Some kind; fault = None } }
{
    Judged {
        at,
        kind: Some(kind),
        fault: None,
    }
}

#[tactic(auto, unfolding(crate::specs::Faults::first_fault, crate::specs::Faults::earlier))]
fn read(at: u32, name: &Name, kind: Option<Kind>) -> Judged
    ensures at { result.at ≡ at }
    ensures kind { result.kind ≡ kind }
    ensures fault { result.fault ≡ first_fault (reading_faults kind name.now.at) }
{
    match kind {
        Some(_) => Judged {
            at,
            kind,
            fault: None,
        },
        None => Judged {
            at,
            kind,
            fault: Some(TypeFault::Unknown(name.at)),
        },
    }
}

fn choice(at: u32, test: Judged, left: Judged, right: Judged) -> Judged
    ensures at { result.at ≡ at }
    ensures kind { result.kind ≡ chosen_kind test.kind left.kind right.kind }
    ensures fault { result.fault
        ≡ earlier (earlier test.fault (first_fault (mismatch (Some Kind.Bool) test.at test.kind)))
        (earlier left.fault (earlier right.fault
        (first_fault (mismatch left.kind right.at right.kind)))) }
{
    let of_test = first(test.fault, misfit(Some(Kind::Bool), test.at, test.kind));
    let of_right = first(right.fault, misfit(left.kind, right.at, right.kind));
    Judged {
        at,
        kind: choose(test.kind, left.kind, right.kind),
        fault: first(of_test, first(left.fault, of_right)),
    }
}

fn combination(at: u32, op: BinOp, left: Judged, right: Judged) -> Judged
    ensures at { result.at ≡ at }
    ensures kind { result.kind ≡ combined_kind op left.kind right.kind }
    ensures fault { result.fault
        ≡ earlier (earlier left.fault (first_fault (left_faults op left.at left.kind)))
        (earlier right.fault (first_fault
        (mismatch (operand_of op left.kind) right.at right.kind))) }
{
    let of_left = first(left.fault, left_misfit(op, left.at, left.kind));
    let wanted = operand_kind(op, left.kind);
    let of_right = first(right.fault, misfit(wanted, right.at, right.kind));
    Judged {
        at,
        kind: combine(op, left.kind, right.kind),
        fault: first(of_left, of_right),
    }
}

fn keeping(at: u32, wanted: Kind, operand: Judged) -> Judged
    ensures at { result.at ≡ at }
    ensures kind { result.kind ≡ kept_kind wanted operand.kind }
    ensures fault { result.fault
        ≡ earlier operand.fault (first_fault (mismatch (Some wanted) operand.at operand.kind)) }
{
    Judged {
        at,
        kind: keep(wanted, operand.kind),
        fault: first(
            operand.fault,
            misfit(Some(wanted), operand.at, operand.kind),
        ),
    }
}

fn call_of_one(at: u32, name: &Name, function: Option<Function>, a: Judged) -> Judged
    ensures at { result.at ≡ at }
    ensures kind { result.kind ≡ result_of (signature_at function 1 a.kind) }
    ensures fault { result.fault
        ≡ earlier a.fault (first_fault (head_faults at name.now function 1 a.at a.kind)) }
{
    Judged {
        at,
        kind: given(find_signature(function, 1, a.kind)),
        fault: first(a.fault, head_fault(at, name, function, 1, a.at, a.kind)),
    }
}

fn call_of_two(at: u32, name: &Name, function: Option<Function>, a: Judged, b: Judged) -> Judged
    ensures at { result.at ≡ at }
    ensures kind { result.kind
        ≡ kind_where (meets (second_of (signature_at function 2 a.kind)) b.kind)
        (result_of (signature_at function 2 a.kind)) }
    ensures fault { result.fault
        ≡ earlier (earlier a.fault b.fault)
        (earlier (first_fault (head_faults at name.now function 2 a.at a.kind))
        (first_fault (mismatch (second_of (signature_at function 2 a.kind)) b.at b.kind))) }
{
    let signature = find_signature(function, 2, a.kind);
    let head = head_fault(at, name, function, 2, a.at, a.kind);
    let wanted = second(signature);
    Judged {
        at,
        kind: given_where(fits(wanted, b.kind), signature),
        fault: first(
            first(a.fault, b.fault),
            first(head, misfit(wanted, b.at, b.kind)),
        ),
    }
}

fn call_of_three(
    at: u32,
    name: &Name,
    function: Option<Function>,
    a: Judged,
    b: Judged,
    c: Judged,
) -> Judged
    ensures at { result.at ≡ at }
    ensures kind { result.kind
        ≡ kind_where (meets (second_of (signature_at function 3 a.kind)) b.kind
        && meets (third_of (signature_at function 3 a.kind)) c.kind)
        (result_of (signature_at function 3 a.kind)) }
    ensures fault { result.fault
        ≡ earlier (earlier a.fault (earlier b.fault c.fault))
        (earlier (first_fault (head_faults at name.now function 3 a.at a.kind))
        (earlier (first_fault (mismatch (second_of (signature_at function 3 a.kind)) b.at b.kind))
        (first_fault (mismatch (third_of (signature_at function 3 a.kind)) c.at c.kind)))) }
{
    let signature = find_signature(function, 3, a.kind);
    let head = head_fault(at, name, function, 3, a.at, a.kind);
    let (wanted_b, wanted_c) = (second(signature), third(signature));
    let fitting = fits(wanted_b, b.kind) && fits(wanted_c, c.kind);
    let rest = first(
        misfit(wanted_b, b.at, b.kind),
        misfit(wanted_c, c.at, c.kind),
    );
    Judged {
        at,
        kind: given_where(fitting, signature),
        fault: first(first(a.fault, first(b.fault, c.fault)), first(head, rest)),
    }
}

fn given(signature: Option<Signature>) -> Option<Kind>
    ensures { result ≡ result_of signature }
{
    match signature {
        Some(signature) => Some(signature.gives),
        None => None,
    }
}

fn given_where(fitting: bool, signature: Option<Signature>) -> Option<Kind>
    ensures { result ≡ kind_where fitting (result_of signature) }
{
    if fitting { given(signature) } else { None }
}

fn second(signature: Option<Signature>) -> Option<Kind>
    ensures { result ≡ second_of signature }
{
    match signature {
        Some(signature) => signature.second,
        None => None,
    }
}

fn third(signature: Option<Signature>) -> Option<Kind>
    ensures { result ≡ third_of signature }
{
    match signature {
        Some(signature) => signature.third,
        None => None,
    }
}
