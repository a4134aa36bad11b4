ghost use Rattle.std.specs.Prelude.{◌≡◌, ℕ, suc, ◌+◌, ◌*◌, ◌^◌, ◌<◌, ◌≤◌, ◌++◌, ◌∷◌, [], List, Bool, false, length, take, IfOk, OnOk, OnErr};
ghost use Rattle.ql_cnf.specs.Satisfaction.{AreInRange, Satisfies};
ghost use Rattle.ql_cnf.specs.Circuits.{circuit_of, circuit_true, InputsInRange, gates, output, both_clauses, either_clauses, if_then_clauses, defining, denying, clauses_of, gate_values, yes};

use crate::{Clauses, Ground, Lit};
use ql_base::NoMemory;

/// Appends clauses that state that the formula is false. Each node that isn't a leaf gets a variable of
/// its own, after the existing ones, children first from left to right, and the clauses that define it;
/// the last clause is the root's negation. Out of memory leaves the clauses as they were; so is a variable or a
/// clause with a number above `u32::MAX`.
pub fn clausify(g: &Ground, c: &mut Clauses) -> Result<(), NoMemory>
    requires leaves { InputsInRange c.old.variables (circuit_of g.now) }
    ensures variables { OnOk result (c.new.variables ≡ c.old.variables + gates (circuit_of g.now)) }
    ensures clauses { OnOk result
        (c.new.clauses ≡ c.old.clauses ++ clauses_of (denying c.old.variables (circuit_of g.now))) }
    ensures err { OnErr result (c.new ≡ c.old) }

    // An assignment that satisfies the old clauses, and in which the formula is false, extends to one that
    // satisfies the new clauses; and wherever the new clauses are satisfied, the formula is false.
    ensures extends { OnOk result
        ((a : List Bool) → Satisfies a c.old → circuit_true a (circuit_of g.now) ≡ false
        → Satisfies (a ++ gate_values a (circuit_of g.now)) c.new) }
    ensures denied { OnOk result
        ((a : List Bool) → Satisfies a c.new → circuit_true a (circuit_of g.now) ≡ false) }
{
    let variables = c.variables();
    let clauses = c.len() as usize;
    let answer = deny(g, c);
    if answer.is_err() {
        c.truncate(variables, clauses);
    }
    answer
}

// The same, but clauses and variables may be left over when memory runs out.
fn deny(g: &Ground, c: &mut Clauses) -> Result<(), NoMemory>
    requires leaves { InputsInRange c.old.variables (circuit_of g.now) }
    ensures variables { OnOk result (c.new.variables ≡ c.old.variables + gates (circuit_of g.now)) }
    ensures clauses { OnOk result
        (c.new.clauses ≡ c.old.clauses ++ clauses_of (denying c.old.variables (circuit_of g.now))) }
    ensures kept { OnErr result (take (length c.old.clauses) c.new.clauses ≡ c.old.clauses) }
{
    let root = define(g, c)?;
    c.append(&[root.negated()])?;
    Ok(())
}

// Appends the clauses that define the formula's nodes, and returns the literal that stands for it.
fn define(g: &Ground, c: &mut Clauses) -> Result<Lit, NoMemory>
    requires leaves { InputsInRange c.old.variables (circuit_of g.now) }
    ensures output { IfOk result (λ x. x ≡ output c.old.variables (circuit_of g.now)) }
    ensures in_range { IfOk result (λ x. (1 ≤ x.var) × (x.var ≤ c.new.variables)) }
    ensures variables { OnOk result (c.new.variables ≡ c.old.variables + gates (circuit_of g.now)) }
    ensures clauses { OnOk result
        (c.new.clauses ≡ c.old.clauses
        ++ clauses_of (defining c.old.variables (circuit_of g.now))) }
    ensures kept { OnErr result (take (length c.old.clauses) c.new.clauses ≡ c.old.clauses) }
{
    match g {
        Ground::True => {
            let t = c.add_variable()?;
            c.append(&[t])?;
            Ok(t)
        }
        Ground::Leaf(lit) => Ok(*lit),
        Ground::And(left, right) => {
            let x = define(left, c)?;
            let y = define(right, c)?;
            define_both(x, y, c)
        }
        Ground::Or(left, right) => {
            let x = define(left, c)?;
            let y = define(right, c)?;
            define_either(x, y, c)
        }
        Ground::Implies(left, right) => {
            let x = define(left, c)?;
            let y = define(right, c)?;
            define_if_then(x, y, c)
        }
    }
}

// A new variable that is true exactly where both literals are.
fn define_both(x: Lit, y: Lit, c: &mut Clauses) -> Result<Lit, NoMemory>
    requires left { (1 ≤ x.var) × (x.var ≤ c.old.variables) }
    requires right { (1 ≤ y.var) × (y.var ≤ c.old.variables) }
    ensures output { IfOk result (λ t. t ≡ yes (suc c.old.variables)) }
    ensures variables { OnOk result (c.new.variables ≡ suc c.old.variables) }
    ensures clauses { OnOk result
        (c.new.clauses ≡ c.old.clauses ++ clauses_of (both_clauses (suc c.old.variables) x y)) }
    ensures kept { OnErr result (take (length c.old.clauses) c.new.clauses ≡ c.old.clauses) }
{
    let t = c.add_variable()?;
    add_three(
        &[t.negated(), x],
        &[t.negated(), y],
        &[t, x.negated(), y.negated()],
        c,
    )?;
    Ok(t)
}

// A new variable that is true exactly where one of the literals is.
fn define_either(x: Lit, y: Lit, c: &mut Clauses) -> Result<Lit, NoMemory>
    requires left { (1 ≤ x.var) × (x.var ≤ c.old.variables) }
    requires right { (1 ≤ y.var) × (y.var ≤ c.old.variables) }
    ensures output { IfOk result (λ t. t ≡ yes (suc c.old.variables)) }
    ensures variables { OnOk result (c.new.variables ≡ suc c.old.variables) }
    ensures clauses { OnOk result
        (c.new.clauses ≡ c.old.clauses ++ clauses_of (either_clauses (suc c.old.variables) x y)) }
    ensures kept { OnErr result (take (length c.old.clauses) c.new.clauses ≡ c.old.clauses) }
{
    let t = c.add_variable()?;
    add_three(
        &[t, x.negated()],
        &[t, y.negated()],
        &[t.negated(), x, y],
        c,
    )?;
    Ok(t)
}

// A new variable that is true exactly where the first literal implies the second.
fn define_if_then(x: Lit, y: Lit, c: &mut Clauses) -> Result<Lit, NoMemory>
    requires left { (1 ≤ x.var) × (x.var ≤ c.old.variables) }
    requires right { (1 ≤ y.var) × (y.var ≤ c.old.variables) }
    ensures output { IfOk result (λ t. t ≡ yes (suc c.old.variables)) }
    ensures variables { OnOk result (c.new.variables ≡ suc c.old.variables) }
    ensures clauses { OnOk result
        (c.new.clauses ≡ c.old.clauses ++ clauses_of (if_then_clauses (suc c.old.variables) x y)) }
    ensures kept { OnErr result (take (length c.old.clauses) c.new.clauses ≡ c.old.clauses) }
{
    let t = c.add_variable()?;
    add_three(
        &[t, x],
        &[t, y.negated()],
        &[t.negated(), x.negated(), y],
        c,
    )?;
    Ok(t)
}

// Appends the clauses of three lists of literals.
fn add_three(first: &[Lit], second: &[Lit], third: &[Lit], c: &mut Clauses) -> Result<(), NoMemory>
    requires first { AreInRange c.old.variables first.now }
    requires second { AreInRange c.old.variables second.now }
    requires third { AreInRange c.old.variables third.now }
    ensures variables { c.new.variables ≡ c.old.variables }
    ensures clauses { OnOk result
        (c.new.clauses ≡ c.old.clauses ++ clauses_of (first.now ∷ second.now ∷ third.now ∷ [])) }
    ensures kept { OnErr result (take (length c.old.clauses) c.new.clauses ≡ c.old.clauses) }
{
    c.append(first)?;
    c.append(second)?;
    c.append(third)?;
    Ok(())
}
