ghost use Rattle.std.specs.Prelude.{◌≡◌, ◌≤◌, ◌↔◌, length, IsTrue};
ghost use Rattle.ql_cnf.specs.Satisfaction.{AreInRange, ClausesInRange, literal_true, clause_true, all_true, Satisfies};

use crate::{Clause, Clauses, Lit};
use std::marker::Model;

/// A truth value for each variable, in the order of the variables.
pub struct Assignment {
    items: Vec<bool>,
}

// Written out, so that a crate above proves one call for it.
impl Drop for Assignment {
    fn drop(self) {
        let Assignment { items: _ } = self;
    }
}

impl Model for Assignment {
    ghost use Rattle.std.specs.Prelude.{List, Bool};

    ghost Value = { List Bool };

    ghost view = { λ a. a.items.items };
}

impl Assignment {
    /// The assignment with these values, variable 1 first.
    pub fn of(items: Vec<bool>) -> Assignment
        ensures { result ≡ items.items }
    {
        Assignment { items }
    }

    /// The values.
    pub fn items(&self) -> &[bool]
        ensures { result.now ≡ self.now }
    {
        &self.items
    }

    /// The values.
    pub fn into_items(self) -> Vec<bool>
        ensures { result.items ≡ self }
    {
        let Assignment { items } = self;
        items
    }
}

/// Whether each clause has a literal that is true in the assignment.
pub fn satisfies(a: &Assignment, c: &Clauses) -> bool
    requires { length a.now ≡ c.now.variables }
    ensures { IsTrue result ↔ Satisfies a.now c.now }
{
    are_clauses_true(a.items(), c.items())
}

fn are_clauses_true(values: &[bool], clauses: &[Clause]) -> bool
    requires { ClausesInRange (length values.now) clauses.now }
    ensures { result ≡ all_true values.now clauses.now }
{
    for clause in clauses {
        if !is_clause_true(values, clause.items()) {
            return false;
        }
    }
    true
}

fn is_clause_true(values: &[bool], clause: &[Lit]) -> bool
    requires { AreInRange (length values.now) clause.now }
    ensures { result ≡ clause_true values.now clause.now }
{
    for lit in clause {
        if is_true(values, *lit) {
            return true;
        }
    }
    false
}

fn is_true(values: &[bool], lit: Lit) -> bool
    requires above { 1 ≤ lit.var }
    requires within { lit.var ≤ length values.now }
    ensures { result ≡ literal_true values.now lit }
{
    values[lit.var as usize - 1] == lit.positive
}
