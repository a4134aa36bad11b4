ghost use Rattle.std.specs.Prelude.{◌≡◌, ◌<◌, ◌++◌, [], map, IfOk, OnOk};
ghost use Rattle.std.specs.List.{All};
ghost use Rattle.ql_atoms.specs.Atoms.{size_of, Fits};
ghost use Rattle.ql_cnf.specs.Circuits.{circuit_of, Input, Both, Either, IfThen};
ghost use Rattle.ql_lang.specs.Formulas.{statement_of};
ghost use Rattle.ql_lang.specs.Trees.{relation_of};
ghost use Rattle.ql_ground.specs.Bodies as circuits;
ghost use Rattle.ql_ground.specs.Bodies.{holds, named_circuit, relation_circuit, all_of, txn_circuit, body_circuit};
ghost use Rattle.ql_ground.specs.Parts.{IsConstant, OverConstants, member_literals, same_literals, other_literals};

use crate::clause::literal;
use ql_atoms::{Atom, PairKind, Shape};
use ql_base::NoMemory;
use ql_cnf::{Ground, Lit};
use ql_lang::{Body, Rel, RelName, Term};
use std::alloc::Global;

// The body of a formula over constants.
pub(crate) fn ground_body(alloc: Global, body: &Body, s: Shape) -> Result<Ground, NoMemory>
    requires { OverConstants (size_of s) (statement_of body.now) }
    ensures { IfOk result (λ g. circuit_of g ≡ body_circuit (size_of s) (statement_of body.now)) }
{
    match body {
        Body::True => Ok(Ground::True),
        Body::Apply(r, x, y) => ground_relation(
            alloc,
            r,
            constant_of(*x, s),
            constant_of(*y, s),
            s,
        ),
        Body::And(p, q) => both(alloc, ground_body(alloc, p, s)?, ground_body(alloc, q, s)?),
        Body::Or(p, q) => either(alloc, ground_body(alloc, p, s)?, ground_body(alloc, q, s)?),
        Body::Implies(p, q) => if_then(alloc, ground_body(alloc, p, s)?, ground_body(alloc, q, s)?),
        Body::Txn(members, others) => ground_txn(alloc, members.items(), others.items(), s),
    }
}

// The constant of a term; the current effect is the last.
fn constant_of(t: Term, s: Shape) -> u32
    requires { IsConstant (size_of s) t }
    ensures { result ≡ circuits.constant_of (size_of s) t }
{
    match t {
        Term::Cur => s.constants - 1,
        Term::Var(v) => v,
    }
}

fn ground_relation(alloc: Global, r: &Rel, i: u32, j: u32, s: Shape) -> Result<Ground, NoMemory>
    requires first { i < s.constants }
    requires second { j < s.constants }
    ensures { IfOk result
        (λ g. circuit_of g ≡ relation_circuit (size_of s) (relation_of r.now) i j) }
{
    match r {
        Rel::Base(name, _) => ground_named(alloc, *name, i, j, s),
        Rel::Union(p, q) => either(
            alloc,
            ground_relation(alloc, p, i, j, s)?,
            ground_relation(alloc, q, i, j, s)?,
        ),
        Rel::Inter(p, q) => both(
            alloc,
            ground_relation(alloc, p, i, j, s)?,
            ground_relation(alloc, q, i, j, s)?,
        ),
    }
}

// Session order on one object is made of two atoms; each other relation has atoms of its own.
fn ground_named(alloc: Global, name: RelName, i: u32, j: u32, s: Shape) -> Result<Ground, NoMemory>
    requires first { i < s.constants }
    requires second { j < s.constants }
    ensures { IfOk result (λ g. circuit_of g ≡ named_circuit (size_of s) name i j) }
{
    let kind = match name {
        RelName::Vis => PairKind::Vis,
        RelName::So => PairKind::So,
        RelName::SameObj => PairKind::SameObj,
        RelName::Eq => PairKind::Eq,
        RelName::Hb => PairKind::Hb,
        RelName::Hbo => PairKind::Hbo,
        RelName::Soo => {
            let ordered = leaf(Atom::Pair(PairKind::So, i, j), s);
            return both(alloc, ordered, leaf(Atom::Pair(PairKind::SameObj, i, j), s));
        }
    };
    Ok(leaf(Atom::Pair(kind, i, j), s))
}

// The first terms are current effects; the others aren't, and are in one transaction.
fn ground_txn(
    alloc: Global,
    members: &[Term],
    others: &[Term],
    s: Shape,
) -> Result<Ground, NoMemory>
    requires members { All (IsConstant (size_of s)) members.now }
    requires others { All (IsConstant (size_of s)) others.now }
    ensures { IfOk result
        (λ g. circuit_of g ≡ txn_circuit (size_of s)
        (map (circuits.constant_of (size_of s)) members.now)
        (map (circuits.constant_of (size_of s)) others.now)) }
{
    let mut lits = Vec::with_capacity(alloc, members.len())?;
    push_members(members, s, &mut lits)?;
    push_others(others, s, &mut lits)?;
    ground_all(alloc, &lits)
}

// Appends that each of these is a current effect.
fn push_members(members: &[Term], s: Shape, lits: &mut Vec<Lit>) -> Result<(), NoMemory>
    requires empty { lits.old.items ≡ [] }
    requires members { All (IsConstant (size_of s)) members.now }
    ensures { OnOk result
        (lits.new.items ≡ member_literals (size_of s)
        (map (circuits.constant_of (size_of s)) members.now)) }
{
    for t in members {
        lits.push(literal(Atom::Current(constant_of(*t, s)), true, s))?;
    }
    Ok(())
}

// Appends that the first of these isn't a current effect, and that the rest are in its transaction.
fn push_others(others: &[Term], s: Shape, lits: &mut Vec<Lit>) -> Result<(), NoMemory>
    requires others { All (IsConstant (size_of s)) others.now }
    ensures { OnOk result
        (lits.new.items ≡ lits.old.items
        ++ other_literals (size_of s) (map (circuits.constant_of (size_of s)) others.now)) }
{
    if let Some((first, rest)) = others.split_first() {
        let first = constant_of(*first, s);
        lits.push(literal(Atom::Current(first), false, s))?;
        push_same(first, rest, s, lits)?;
    }
    Ok(())
}

// Appends that each of these is in the transaction of an effect.
fn push_same(first: u32, rest: &[Term], s: Shape, lits: &mut Vec<Lit>) -> Result<(), NoMemory>
    requires first { first < s.constants }
    requires rest { All (IsConstant (size_of s)) rest.now }
    ensures { OnOk result
        (lits.new.items ≡ lits.old.items
        ++ same_literals (size_of s) first (map (circuits.constant_of (size_of s)) rest.now)) }
{
    for t in rest {
        let same = Atom::Pair(PairKind::SameTxn, first, constant_of(*t, s));
        lits.push(literal(same, true, s))?;
    }
    Ok(())
}

// All of these, grouped to the left.
fn ground_all(alloc: Global, lits: &[Lit]) -> Result<Ground, NoMemory>
    ensures { IfOk result (λ g. circuit_of g ≡ all_of (map Input lits.now)) }
{
    let Some((first, rest)) = lits.split_first() else {
        return Ok(Ground::True);
    };
    let mut all = Ground::Leaf(*first);
    for lit in rest {
        all = both(alloc, all, Ground::Leaf(*lit))?;
    }
    Ok(all)
}

fn leaf(a: Atom, s: Shape) -> Ground
    requires { Fits (size_of s) a }
    ensures { circuit_of result ≡ holds (size_of s) a }
{
    Ground::Leaf(literal(a, true, s))
}

fn both(alloc: Global, g: Ground, h: Ground) -> Result<Ground, NoMemory>
    ensures { IfOk result (λ r. circuit_of r ≡ Both (circuit_of g) (circuit_of h)) }
{
    Ok(Ground::And(Box::new(alloc, g)?, Box::new(alloc, h)?))
}

fn either(alloc: Global, g: Ground, h: Ground) -> Result<Ground, NoMemory>
    ensures { IfOk result (λ r. circuit_of r ≡ Either (circuit_of g) (circuit_of h)) }
{
    Ok(Ground::Or(Box::new(alloc, g)?, Box::new(alloc, h)?))
}

fn if_then(alloc: Global, g: Ground, h: Ground) -> Result<Ground, NoMemory>
    ensures { IfOk result (λ r. circuit_of r ≡ IfThen (circuit_of g) (circuit_of h)) }
{
    Ok(Ground::Implies(Box::new(alloc, g)?, Box::new(alloc, h)?))
}
