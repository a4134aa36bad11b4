ghost use Rattle.std.specs.Prelude.{◌≡◌, ℕ, suc, take, ◌+◌, ◌-◌, ◌^◌, ◌<◌, ◌≤◌, ◌↔◌, ◌&&◌, List, Bool, [], length, slice_get, IfOk, OnOk, OnErr, IfSome, IsNone, is_some, Some, None, MatchBool};
ghost use Rattle.ql_cnf.specs.Literals.{clause_of, HasBothSigns, SameLiterals, IsAscendingByVariable};
ghost use Rattle.ql_cnf.specs.Satisfaction.{AreInRange, ClausesInRange, with_clause, all_true, clause_true};
ghost use Rattle.ql_cnf.specs.Circuits.{yes};

use crate::clause::insert;
use crate::{Clause, Lit};
use ql_base::NoMemory;
use std::alloc::Global;
use std::marker::Model;

/// Clauses over the variables from 1 to a count: their conjunction.
pub struct Clauses {
    variables: u32,
    clauses: Vec<Clause>,
}

// Written out, so that a crate above proves one call for it.
impl Drop for Clauses {
    fn drop(self) {
        let Clauses {
            variables: _,
            clauses: _,
        } = self;
    }
}

impl Model for Clauses {
    ghost use Rattle.std.specs.Prelude.{◌^◌, ◌<◌, length};
    ghost use Rattle.ql_cnf.specs.Satisfaction.{ClauseList, ClausesInRange};

    ghost Value = { ClauseList };

    ghost view = { λ c. record { variables = c.variables; clauses = c.clauses.items } };

    ghost invariant = { λ c. record { in_range : ClausesInRange c.variables c.clauses.items; numbered : length c.clauses.items < 2 ^ 32; counted : c.variables < 2 ^ 32 } };
}

impl Clauses {
    /// The empty list of clauses, over this many variables.
    pub fn new(alloc: Global, variables: u32) -> Clauses
        ensures variables { result.variables ≡ variables }
        ensures empty { result.clauses ≡ [] }
    {
        Clauses {
            variables,
            clauses: Vec::new(alloc),
        }
    }

    /// Appends the clause of these literals: sorted by variable, each literal once. Literals that hold
    /// both signs of a variable are true in any assignment; then nothing is appended, and false is
    /// returned. Out of memory leaves the list as it was; so is a clause with a number above `u32::MAX`.
    #[tactic(auto, using(crate::proofs::Meaning::is_clause, crate::proofs::Meaning::is_tautology, crate::proofs::Truth::added_means, crate::proofs::Truth::left_out_means, crate::proofs::Truth::added_in_range))]
    pub fn add(&mut self, lits: &[Lit]) -> Result<bool, NoMemory>
        requires in_range { AreInRange self.old.variables lits.now }
        ensures added { IfOk result (λ added. added ≡ is_some (clause_of lits.now)) }
        ensures new { OnOk result (self.new ≡ with_clause self.old (clause_of lits.now)) }
        ensures err { OnErr result (self.new ≡ self.old) }
        ensures variables { self.new.variables ≡ self.old.variables }
        ensures len { length self.new.clauses ≤ length self.old.clauses + 1 }

        // Which clause the literals make, and when they make none.
        ensures clause { IfSome (clause_of lits.now)
            (λ c. IsAscendingByVariable c × SameLiterals c lits.now) }
        ensures tautology { IsNone (clause_of lits.now) ↔ HasBothSigns lits.now }

        // The list is true where it was before and one of the literals is.
        ensures meaning { OnOk result
            ((a : List Bool) → all_true a self.new.clauses
            ≡ (all_true a self.old.clauses && clause_true a lits.now)) }
    {
        self.append(lits)
    }

    // The same, with the facts that whoever appends several needs.
    pub(crate) fn append(&mut self, lits: &[Lit]) -> Result<bool, NoMemory>
        requires in_range { AreInRange self.old.variables lits.now }
        ensures added { IfOk result (λ added. added ≡ is_some (clause_of lits.now)) }
        ensures new { OnOk result (self.new ≡ with_clause self.old (clause_of lits.now)) }
        ensures err { OnErr result (self.new ≡ self.old) }
        ensures variables { self.new.variables ≡ self.old.variables }
        ensures len { length self.new.clauses ≤ length self.old.clauses + 1 }
        ensures in_range { ClausesInRange self.old.variables self.old.clauses }
    {
        if self.len() == u32::MAX {
            return Err(NoMemory);
        }
        match ascending(*self.clauses.allocator(), lits)? {
            Some(clause) => {
                self.clauses.push(clause)?;
                Ok(true)
            }
            None => Ok(false),
        }
    }

    /// How many clauses there are.
    pub fn len(&self) -> u32
        ensures value { result ≡ length self.now.clauses }
        ensures in_range { ClausesInRange self.now.variables self.now.clauses }
    {
        self.clauses.len() as u32
    }

    /// The clause with this number; the first has number 1.
    pub fn clause(&self, k: u32) -> &Clause
        requires first { 1 ≤ k }
        requires last { k ≤ length self.now.clauses }
        ensures same { slice_get self.now.clauses (k - 1) ≡ Some result.now }
        ensures in_range { AreInRange self.now.variables result.now }
    {
        &self.clauses[k as usize - 1]
    }

    pub(crate) fn items(&self) -> &[Clause]
        ensures same { result.now ≡ self.now.clauses }
        ensures in_range { ClausesInRange self.now.variables self.now.clauses }
    {
        &self.clauses
    }

    // Adds a variable after the others, and returns its literal. A number above `u32::MAX` is out of memory.
    pub(crate) fn add_variable(&mut self) -> Result<Lit, NoMemory>
        ensures literal { IfOk result (λ x. x ≡ yes (suc self.old.variables)) }
        ensures new { OnOk result (self.new
            ≡ record { variables = suc self.old.variables; clauses = self.old.clauses }) }
        ensures err { OnErr result (self.new ≡ self.old) }
    {
        if self.variables == u32::MAX {
            return Err(NoMemory);
        }
        self.variables += 1;
        Ok(Lit {
            var: self.variables,
            positive: true,
        })
    }

    // Truncates the list to this many variables and clauses.
    pub(crate) fn truncate(&mut self, variables: u32, len: usize)
        requires { ClausesInRange variables (take len self.old.clauses) }
        ensures { self.new ≡ record { variables = variables; clauses = take len self.old.clauses } }
    {
        self.variables = variables;
        self.clauses.truncate(len);
    }

    /// How many variables there are.
    pub fn variables(&self) -> u32
        ensures { result ≡ self.now.variables }
    {
        self.variables
    }
}

// The ascending clause of the literals, or none if they hold both signs of a variable.
fn ascending(alloc: Global, lits: &[Lit]) -> Result<Option<Clause>, NoMemory>
    ensures { IfOk result (λ clause. clause ≡ clause_of lits.now) }
{
    let mut items = Vec::with_capacity(alloc, lits.len())?;
    for lit in lits {
        if !insert(&mut items, *lit)? {
            return Ok(None);
        }
    }
    Ok(Some(Clause::of(items)))
}
