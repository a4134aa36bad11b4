ghost use Rattle.std.specs.Prelude.{◌≡◌, ◌++◌, OnOk, codes};
ghost use Rattle.ql_lang.specs.Expressions.{expression_of, operands_of};
ghost use Rattle.ql_lang.specs.ExpressionSpelling.{
  expression_text,
  is_compound,
  operand_texts,
  operator_word,
  quoted,
  truth_word,
};
ghost use Rattle.ql_lang.specs.Spelling.{in_brackets, listed};

use crate::expression::{BinOp, Expr, ExprNode};
use ql_base::{NoMemory, push_all, push_bytes, push_number};

// Appends the text of an expression.
#[cycle(expression)]
#[tactic(auto, unfolding(crate::specs::Expressions::node_of, crate::specs::ExpressionSpelling::expression_text))]
pub(crate) fn push_expression(out: &mut Vec<u8>, e: &Expr) -> Result<(), NoMemory>
    ensures { OnOk result (out.new.items ≡ out.old.items ++ expression_text (expression_of e.now)) }
{
    match &e.node {
        ExprNode::Int(n) => push_number(out, *n),
        ExprNode::Text(text) => push_quoted(out, text.items()),
        ExprNode::Bool(b) => push_bytes(out, truth_word(*b)),
        ExprNode::Unit => push_bytes(out, b"unit"),
        ExprNode::Var(name) => push_bytes(out, name.word.bytes()),
        ExprNode::Call(name, args) => {
            push_all(out, &[name.word.bytes(), b"("])?;
            push_arguments(out, args.items())?;
            push_bytes(out, b")")
        }
        ExprNode::If(test, left, right) => {
            push_bytes(out, b"if ")?;
            push_expression(out, test)?;
            push_bytes(out, b" then ")?;
            push_expression(out, left)?;
            push_bytes(out, b" else ")?;
            push_expression(out, right)
        }
        ExprNode::Binary(op, left, right) => {
            push_operand(out, left)?;
            push_all(out, &[b" ", operator_word(*op), b" "])?;
            push_operand(out, right)
        }
        ExprNode::Not(operand) => {
            push_bytes(out, b"not ")?;
            push_operand(out, operand)
        }
        ExprNode::Neg(operand) => {
            push_bytes(out, b"-")?;
            push_operand(out, operand)
        }
    }
}

// An expression, in brackets if it is made by an operator or an `if`.
#[cycle(expression)]
fn push_operand(out: &mut Vec<u8>, e: &Expr) -> Result<(), NoMemory>
    ensures { OnOk result
        (out.new.items ≡ out.old.items
        ++ in_brackets (is_compound (expression_of e.now))
        (expression_text (expression_of e.now))) }
{
    if !is_compound(e) {
        return push_expression(out, e);
    }
    push_bytes(out, b"(")?;
    push_expression(out, e)?;
    push_bytes(out, b")")
}

// Expressions with a comma between them.
#[cycle(expression)]
#[tactic(auto, unfolding(crate::specs::ExpressionSpelling::operand_texts))]
fn push_arguments(out: &mut Vec<u8>, args: &[Expr]) -> Result<(), NoMemory>
    ensures { OnOk result
        (out.new.items ≡ out.old.items
        ++ listed (codes ", ") (operand_texts (operands_of args.now))) }
{
    let Some((first, others)) = args.split_first() else {
        return Ok(());
    };
    push_expression(out, first)?;
    for arg in others {
        push_bytes(out, b", ")?;
        push_expression(out, arg)?;
    }
    Ok(())
}

// Whether an expression is made by an operator or an `if`.
#[tactic(auto, unfolding(crate::specs::Expressions::node_of))]
fn is_compound(e: &Expr) -> bool
    ensures { result ≡ is_compound (expression_of e.now) }
{
    match &e.node {
        ExprNode::If(_, _, _) | ExprNode::Binary(_, _, _) => true,
        ExprNode::Not(_) | ExprNode::Neg(_) => true,
        ExprNode::Int(_) | ExprNode::Text(_) | ExprNode::Bool(_) => false,
        ExprNode::Unit | ExprNode::Var(_) | ExprNode::Call(_, _) => false,
    }
}

// A text between quotes.
pub(crate) fn push_quoted(out: &mut Vec<u8>, text: &[u8]) -> Result<(), NoMemory>
    ensures { OnOk result (out.new.items ≡ out.old.items ++ quoted text.now) }
{
    push_all(out, &[b"\"", text, b"\""])
}

pub(crate) fn truth_word(b: bool) -> &'static [u8]
    ensures { result.now ≡ truth_word b }
{
    if b { b"true" } else { b"false" }
}

fn operator_word(op: BinOp) -> &'static [u8]
    ensures { result.now ≡ operator_word op }
{
    match op {
        BinOp::Or => b"or",
        BinOp::And => b"and",
        BinOp::Eq => b"==",
        BinOp::Ne => b"!=",
        BinOp::Lt => b"<",
        BinOp::Le => b"<=",
        BinOp::Gt => b">",
        BinOp::Ge => b">=",
        BinOp::Add => b"+",
        BinOp::Sub => b"-",
        BinOp::Mul => b"*",
    }
}
