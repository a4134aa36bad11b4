ghost use Rattle.std.specs.Prelude.{◌≡◌, Some, None, IfOk, MatchBool};
ghost use Rattle.ql_cnf.specs.Literals.{IsAscendingByVariable, count_below, with_literal};

use crate::Lit;
use ql_base::NoMemory;
use std::alloc::Global;
use std::marker::Model;

/// A clause: the disjunction of its literals, which are strictly ascending by variable.
pub struct Clause {
    items: Vec<Lit>,
}

// Written out, so that a crate above proves one call for it.
impl Drop for Clause {
    fn drop(self) {
        let Clause { items: _ } = self;
    }
}

impl Model for Clause {
    ghost use Rattle.std.specs.Prelude.{List};
    ghost use Rattle.ql_cnf.specs.declared.lit.Lit.{Lit};
    ghost use Rattle.ql_cnf.specs.Literals.{IsAscendingByVariable};

    ghost Value = { List Lit };

    ghost view = { λ c. c.items.items };

    ghost invariant = { λ c. IsAscendingByVariable c.items.items };
}

impl Clause {
    /// The clause of these literals.
    pub fn of(items: Vec<Lit>) -> Clause
        requires { IsAscendingByVariable items.items }
        ensures { result ≡ items.items }
    {
        Clause { items }
    }

    /// The literals.
    pub fn items(&self) -> &[Lit]
        ensures same { result.now ≡ self.now }
        ensures ascending { IsAscendingByVariable self.now }
    {
        &self.items
    }

    /// The literals.
    pub fn into_items(self) -> Vec<Lit>
        ensures same { result.items ≡ self }
        ensures ascending { IsAscendingByVariable self }
    {
        let Clause { items } = self;
        items
    }

    /// The clause with one more literal, in order; none if the clause has the literal's negation.
    #[tactic(auto, using(crate::proofs::Meaning::stays_ascending))]
    pub fn with(&self, alloc: Global, lit: Lit) -> Result<Option<Clause>, NoMemory>
        ensures { IfOk result (λ clause. clause ≡ with_literal lit self.now) }
    {
        let mut items = Vec::from_slice(alloc, self.items())?;
        if insert(&mut items, lit)? {
            Ok(Some(Clause::of(items)))
        } else {
            Ok(None)
        }
    }
}

// Inserts the literal in order, unless it is already there; false if its negation is there. A literal that
// belongs at the end costs one comparison.
pub(crate) fn insert(items: &mut Vec<Lit>, lit: Lit) -> Result<bool, NoMemory>
    requires { IsAscendingByVariable items.old.items }
    ensures { IfOk result
        (λ fits. MatchBool fits (with_literal lit items.old.items ≡ Some items.new.items)
        (with_literal lit items.old.items ≡ None)) }
{
    let place = place_of(items, lit.var);
    if place < items.len() && items[place].var == lit.var {
        return Ok(items[place].positive == lit.positive);
    }
    items.insert(place, lit)?;
    Ok(true)
}

// How many literals have a smaller variable: the index at which a literal of this variable belongs.
fn place_of(items: &[Lit], var: u32) -> usize
    requires { IsAscendingByVariable items.now }
    ensures { result ≡ count_below var items.now }
{
    let mut place = items.len();
    while place > 0 && var <= items[place - 1].var {
        place -= 1;
    }
    place
}
