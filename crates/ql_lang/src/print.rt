ghost use Rattle.std.specs.Prelude.{◌≡◌, ◌++◌, IfOk, OnOk, codes, map};
ghost use Rattle.ql_lang.specs.Spelling.{
  application_text,
  contract_text,
  in_brackets,
  is_joined,
  listed,
  operations_text,
  prop_text,
  relation_text,
  relation_word,
  term_text,
  terms_text,
  var_text,
  vars_text,
  word_of,
};
ghost use Rattle.ql_lang.specs.Trees.{proposition_of, relation_of, sentence_of};

use crate::contract::{Contract, Point, Prop, Var};
use crate::name::Name;
use crate::relation::{Rel, RelName};
use ql_base::{NoMemory, push_all, push_bytes};
use std::alloc::Global;

/// The text of a contract: its tree has this one spelling, whatever the source offsets.
pub fn print_contract(alloc: Global, contract: &Contract) -> Result<Vec<u8>, NoMemory>
    ensures { IfOk result (λ text. text.items ≡ contract_text (sentence_of contract.now)) }
{
    let mut out = Vec::new(alloc);
    push_contract(&mut out, contract)?;
    Ok(out)
}

// Appends the text of a contract.
pub(crate) fn push_contract(out: &mut Vec<u8>, contract: &Contract) -> Result<(), NoMemory>
    ensures { OnOk result
        (out.new.items ≡ out.old.items ++ contract_text (sentence_of contract.now)) }
{
    push_quantifier(out, contract.vars.items())?;
    push_prop(out, &contract.body)
}

// The word `forall` and the variables, if there are any.
fn push_quantifier(out: &mut Vec<u8>, vars: &[Var]) -> Result<(), NoMemory>
    ensures { OnOk result (out.new.items ≡ out.old.items ++ vars_text vars.now) }
{
    if vars.is_empty() {
        return Ok(());
    }
    push_bytes(out, b"forall ")?;
    push_vars(out, vars)?;
    push_bytes(out, b". ")
}

// Variables with a comma between them.
fn push_vars(out: &mut Vec<u8>, vars: &[Var]) -> Result<(), NoMemory>
    ensures { OnOk result
        (out.new.items ≡ out.old.items ++ listed (codes ", ") (map var_text vars.now)) }
{
    let mut before: &[u8] = b"";
    for var in vars {
        push_bytes(out, before)?;
        push_var(out, var)?;
        before = b", ";
    }
    Ok(())
}

fn push_var(out: &mut Vec<u8>, var: &Var) -> Result<(), NoMemory>
    ensures { OnOk result (out.new.items ≡ out.old.items ++ var_text var.now) }
{
    push_bytes(out, var.name.word.bytes())?;
    push_operations(out, var.ops.items())
}

// A colon and the operations of a variable, if it names any.
fn push_operations(out: &mut Vec<u8>, ops: &[Name]) -> Result<(), NoMemory>
    ensures { OnOk result (out.new.items ≡ out.old.items ++ operations_text ops.now) }
{
    if ops.is_empty() {
        return Ok(());
    }
    push_bytes(out, b": ")?;
    push_names(out, ops, b" | ")
}

// Names with a separator between them.
pub(crate) fn push_names(out: &mut Vec<u8>, names: &[Name], mark: &[u8]) -> Result<(), NoMemory>
    ensures { OnOk result
        (out.new.items ≡ out.old.items ++ listed mark.now (map word_of names.now)) }
{
    let mut before: &[u8] = b"";
    for name in names {
        push_bytes(out, before)?;
        push_bytes(out, name.word.bytes())?;
        before = mark;
    }
    Ok(())
}

#[cycle(prop)]
fn push_prop(out: &mut Vec<u8>, prop: &Prop) -> Result<(), NoMemory>
    ensures { OnOk result (out.new.items ≡ out.old.items ++ prop_text (proposition_of prop.now)) }
{
    match prop {
        Prop::True => push_bytes(out, b"true"),
        Prop::Apply(relation, left, right) => push_application(out, relation, left, right),
        Prop::Txn(_, first, second) => push_txn(out, first.items(), second.items()),
        Prop::And(left, right) => {
            push_operand(out, left)?;
            push_bytes(out, b" /\\ ")?;
            push_operand(out, right)
        }
        Prop::Or(left, right) => {
            push_operand(out, left)?;
            push_bytes(out, b" \\/ ")?;
            push_operand(out, right)
        }
        Prop::Implies(left, right) => {
            push_operand(out, left)?;
            push_bytes(out, b" => ")?;
            push_operand(out, right)
        }
    }
}

// A statement, in brackets if it is made by a connective.
#[cycle(prop)]
fn push_operand(out: &mut Vec<u8>, prop: &Prop) -> Result<(), NoMemory>
    ensures { OnOk result
        (out.new.items ≡ out.old.items
        ++ in_brackets (is_joined (proposition_of prop.now))
        (prop_text (proposition_of prop.now))) }
{
    if !is_joined(prop) {
        return push_prop(out, prop);
    }
    push_bytes(out, b"(")?;
    push_prop(out, prop)?;
    push_bytes(out, b")")
}

// Whether a statement is made by a connective.
fn is_joined(prop: &Prop) -> bool
    ensures { result ≡ is_joined (proposition_of prop.now) }
{
    match prop {
        Prop::And(_, _) | Prop::Or(_, _) | Prop::Implies(_, _) => true,
        Prop::True | Prop::Apply(_, _, _) | Prop::Txn(_, _, _) => false,
    }
}

fn push_application(
    out: &mut Vec<u8>,
    relation: &Rel,
    left: &Point,
    right: &Point,
) -> Result<(), NoMemory>
    ensures { OnOk result
        (out.new.items ≡ out.old.items
        ++ application_text (relation_of relation.now) left.now right.now) }
{
    if let Rel::Base(RelName::Eq, _) = relation {
        return push_all(out, &[term_bytes(left), b" = ", term_bytes(right)]);
    }
    push_relation(out, relation)?;
    push_arguments(out, left, right)
}

// Two terms in brackets.
fn push_arguments(out: &mut Vec<u8>, left: &Point, right: &Point) -> Result<(), NoMemory>
    ensures { OnOk result
        (out.new.items ≡ out.old.items ++ (codes "(") ++ term_text left.now ++ (codes ", ")
        ++ term_text right.now ++ (codes ")")) }
{
    push_all(
        out,
        &[b"(", term_bytes(left), b", ", term_bytes(right), b")"],
    )
}

fn push_relation(out: &mut Vec<u8>, relation: &Rel) -> Result<(), NoMemory>
    ensures { OnOk result
        (out.new.items ≡ out.old.items ++ relation_text (relation_of relation.now)) }
{
    match relation {
        Rel::Base(name, _) => push_bytes(out, relation_word(*name)),
        Rel::Union(left, right) => {
            push_bytes(out, b"[")?;
            push_relation(out, left)?;
            push_bytes(out, b" | ")?;
            push_relation(out, right)?;
            push_bytes(out, b"]")
        }
        Rel::Inter(left, right) => {
            push_bytes(out, b"[")?;
            push_relation(out, left)?;
            push_bytes(out, b" & ")?;
            push_relation(out, right)?;
            push_bytes(out, b"]")
        }
    }
}

fn relation_word(name: RelName) -> &'static [u8]
    ensures { result.now ≡ relation_word name }
{
    match name {
        RelName::Vis => b"vis",
        RelName::So => b"so",
        RelName::Soo => b"soo",
        RelName::SameObj => b"sameobj",
        RelName::Eq => b"eq",
        RelName::Hb => b"hb",
        RelName::Hbo => b"hbo",
    }
}

// The two groups of terms of a `txn`.
fn push_txn(out: &mut Vec<u8>, first: &[Point], second: &[Point]) -> Result<(), NoMemory>
    ensures { OnOk result
        (out.new.items ≡ out.old.items ++ (codes "txn{") ++ terms_text first.now ++ (codes "}{")
        ++ terms_text second.now ++ (codes "}")) }
{
    push_bytes(out, b"txn{")?;
    push_terms(out, first)?;
    push_bytes(out, b"}{")?;
    push_terms(out, second)?;
    push_bytes(out, b"}")
}

// Terms with a comma between them.
fn push_terms(out: &mut Vec<u8>, terms: &[Point]) -> Result<(), NoMemory>
    ensures { OnOk result (out.new.items ≡ out.old.items ++ terms_text terms.now) }
{
    let mut before: &[u8] = b"";
    for term in terms {
        push_bytes(out, before)?;
        push_bytes(out, term_bytes(term))?;
        before = b", ";
    }
    Ok(())
}

fn term_bytes(term: &Point) -> &[u8]
    ensures { result.now ≡ term_text term.now }
{
    match term {
        Point::CurAt(_) => b"cur",
        Point::Named(name) => name.word.bytes(),
    }
}
