ghost use Rattle.std.specs.Prelude.{◌≡◌, List, IfOk, replicate};
ghost use Rattle.ql_lang.specs.Formulas.{resolved_of, statement_of, BothOf, OneOf, IfThen, InOneTxn, Related};
ghost use Rattle.ql_lang.specs.Trees.{Basic};
ghost use Rattle.ql_lang.specs.declared.formula.OpChoice.TheVariants.{Any};
ghost use Rattle.ql_levels.specs.declared.level.Level.TheVariants.{Eventual, Causal, Wide, Strong};
ghost use Rattle.ql_levels.specs.Formulas.{formula_of, txn_formula_of, whole_transactions, monotonic_views, repeatable_views};

use crate::level::{Level, TxnLevel};
use ql_base::NoMemory;
use ql_lang::{Body, Choices, Formula, OpChoice, Rel, RelName, Term, Terms};
use std::alloc::Global;

const A: Term = Term::Var(0);

const B: Term = Term::Var(1);

const C: Term = Term::Var(2);

const D: Term = Term::Var(3);

/// The formula of a level: what the store guarantees of the current effect.
pub fn formula(alloc: Global, l: Level) -> Result<Formula, NoMemory>
    ensures { IfOk result (λ f. resolved_of f ≡ formula_of l) }
{
    match l {
        Level::Eventual => for_all(alloc, 2, eventual(alloc)?),
        Level::Causal => for_all(alloc, 1, causal(alloc)?),
        Level::Wide => for_all(alloc, 1, wide(alloc)?),
        Level::Strong => for_all(alloc, 1, strong(alloc)?),
    }
}

// What comes before an effect that is seen is seen.
fn eventual(alloc: Global) -> Result<Body, NoMemory>
    ensures { IfOk result (λ b. statement_of b ≡ (formula_of Eventual).body) }
{
    let earlier = both(
        alloc,
        related(RelName::Hbo, A, B),
        related(RelName::Vis, B, Term::Cur),
    )?;
    implies(alloc, earlier, related(RelName::Vis, A, Term::Cur))
}

// What happened before on the object is seen.
fn causal(alloc: Global) -> Result<Body, NoMemory>
    ensures { IfOk result (λ b. statement_of b ≡ (formula_of Causal).body) }
{
    implies(
        alloc,
        related(RelName::Hbo, A, Term::Cur),
        related(RelName::Vis, A, Term::Cur),
    )
}

// What happened before, by way of whatever object, is seen.
fn wide(alloc: Global) -> Result<Body, NoMemory>
    ensures { IfOk result (λ b. statement_of b ≡ (formula_of Wide).body) }
{
    let earlier = both(
        alloc,
        related(RelName::Hb, A, Term::Cur),
        related(RelName::SameObj, A, Term::Cur),
    )?;
    implies(alloc, earlier, related(RelName::Vis, A, Term::Cur))
}

// Each other effect on the object is seen, or sees this one.
fn strong(alloc: Global) -> Result<Body, NoMemory>
    ensures { IfOk result (λ b. statement_of b ≡ (formula_of Strong).body) }
{
    let seen = either(
        alloc,
        related(RelName::Vis, A, Term::Cur),
        related(RelName::Vis, Term::Cur, A),
    )?;
    let seen = either(alloc, seen, related(RelName::Eq, A, Term::Cur))?;
    implies(alloc, related(RelName::SameObj, A, Term::Cur), seen)
}

/// The formula of a transaction's level: what the store guarantees of the current transaction.
pub fn txn_formula(alloc: Global, l: TxnLevel) -> Result<Formula, NoMemory>
    ensures { IfOk result (λ f. resolved_of f ≡ txn_formula_of l) }
{
    match l {
        TxnLevel::Rc => for_all(alloc, 3, whole(alloc)?),
        TxnLevel::Mav => {
            let body = both(alloc, whole(alloc)?, monotonic(alloc)?)?;
            for_all(alloc, 4, body)
        }
        TxnLevel::Rr => for_all(alloc, 4, repeatable(alloc)?),
    }
}

// Where an effect of the transaction sees one of another, it sees all of that one's effects on the object.
fn whole(alloc: Global) -> Result<Body, NoMemory>
    ensures { IfOk result (λ b. statement_of b ≡ whole_transactions) }
{
    let other = both(
        alloc,
        in_txn(alloc, &[A], &[B, C])?,
        related(RelName::SameObj, B, C),
    )?;
    let seen = both(alloc, other, related(RelName::Vis, B, A))?;
    implies(alloc, seen, related(RelName::Vis, C, A))
}

// What an effect of the transaction sees of another, its later effects see.
fn monotonic(alloc: Global) -> Result<Body, NoMemory>
    ensures { IfOk result (λ b. statement_of b ≡ monotonic_views) }
{
    let ordered = both(
        alloc,
        in_txn(alloc, &[A, B], &[C, D])?,
        related(RelName::So, A, B),
    )?;
    let seen = both(alloc, ordered, related(RelName::Vis, C, A))?;
    let on_object = both(alloc, seen, related(RelName::SameObj, D, B))?;
    implies(alloc, on_object, related(RelName::Vis, D, B))
}

// What an effect of the transaction sees of another, all its effects see.
fn repeatable(alloc: Global) -> Result<Body, NoMemory>
    ensures { IfOk result (λ b. statement_of b ≡ repeatable_views) }
{
    let seen = both(
        alloc,
        in_txn(alloc, &[A, B], &[C, D])?,
        related(RelName::Vis, C, A),
    )?;
    let on_object = both(alloc, seen, related(RelName::SameObj, D, B))?;
    implies(alloc, on_object, related(RelName::Vis, D, B))
}

fn for_all(alloc: Global, variables: usize, body: Body) -> Result<Formula, NoMemory>
    ensures { IfOk result
        (λ f. resolved_of f ≡ record { vars = replicate variables Any; body = statement_of body }) }
{
    Ok(Formula {
        vars: any_effects(alloc, variables)?,
        body,
    })
}

fn any_effects(alloc: Global, variables: usize) -> Result<Choices, NoMemory>
    ensures { IfOk result (λ choices. choices ≡ replicate variables Any) }
{
    let mut choices = Vec::new(alloc);
    for _ in 0..variables {
        choices.push(OpChoice::Any)?;
    }
    Ok(Choices::of(choices))
}

fn related(name: RelName, x: Term, y: Term) -> Body
    ensures { statement_of result ≡ Related (Basic name 0) x y }
{
    Body::Apply(Rel::Base(name, 0), x, y)
}

fn in_txn(alloc: Global, members: &[Term], others: &[Term]) -> Result<Body, NoMemory>
    ensures { IfOk result (λ b. statement_of b ≡ InOneTxn members.now others.now) }
{
    let members = Terms::of(members.to_vec(alloc)?);
    let others = Terms::of(others.to_vec(alloc)?);
    Ok(Body::Txn(members, others))
}

fn both(alloc: Global, p: Body, q: Body) -> Result<Body, NoMemory>
    ensures { IfOk result (λ b. statement_of b ≡ BothOf (statement_of p) (statement_of q)) }
{
    let (p, q) = boxed(alloc, p, q)?;
    Ok(Body::And(p, q))
}

fn either(alloc: Global, p: Body, q: Body) -> Result<Body, NoMemory>
    ensures { IfOk result (λ b. statement_of b ≡ OneOf (statement_of p) (statement_of q)) }
{
    let (p, q) = boxed(alloc, p, q)?;
    Ok(Body::Or(p, q))
}

fn implies(alloc: Global, p: Body, q: Body) -> Result<Body, NoMemory>
    ensures { IfOk result (λ b. statement_of b ≡ IfThen (statement_of p) (statement_of q)) }
{
    let (p, q) = boxed(alloc, p, q)?;
    Ok(Body::Implies(p, q))
}

fn boxed(alloc: Global, p: Body, q: Body) -> Result<(Box<Body>, Box<Body>), NoMemory>
    ensures { IfOk result (λ b. (b.0.value ≡ p) × (b.1.value ≡ q)) }
{
    Ok((Box::new(alloc, p)?, Box::new(alloc, q)?))
}
