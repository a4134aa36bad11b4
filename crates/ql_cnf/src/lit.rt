ghost use Rattle.std.specs.Prelude.{◌≡◌, ◌↔◌, IsTrue};
ghost use Rattle.ql_cnf.specs.Satisfaction.{AreInRange};

/// A literal: a variable, numbered from 1, or its negation.
#[derive(Clone, Copy, PartialEq, Eq)]
pub struct Lit {
    pub var: u32,
    pub positive: bool,
}

impl Lit {
    ghost use Rattle.std.specs.Prelude.{◌≡◌};
    ghost use Rattle.ql_cnf.specs.Literals.{negated};

    /// The same variable with the other sign.
    pub fn negated(self) -> Lit
        ensures { result ≡ negated self }
    {
        Lit {
            var: self.var,
            positive: !self.positive,
        }
    }
}

/// Whether the variables of these literals are 1 to a count.
pub fn are_in_range(lits: &[Lit], variables: u32) -> bool
    ensures { IsTrue result ↔ AreInRange variables lits.now }
{
    lits.iter().all(|x| 1 <= x.var && x.var <= variables)
}
