ghost use Rattle.std.specs.Prelude.{◌≡◌};
ghost use Rattle.ql_lang.specs.Formulas.{resolved_of};
ghost use Rattle.ql_holds_files.specs.Holdings.{asked_of};

use crate::holding::{Holding, Words};
use ql_base::{EffId, Word};
use ql_exec::Execution;
use ql_lang::Formula;
use std::marker::Model;

/// A contract with its names resolved, and the names of its variables.
#[derive(Drop)]
pub struct ReadContract {
    formula: Formula,
    names: Words,
}

impl Model for ReadContract {
    ghost use Rattle.ql_lang.specs.Formulas.{resolved_of};
    ghost use Rattle.ql_holds_files.specs.NamedFormulas.{NamedFormula, named_code};

    ghost Value = { NamedFormula };

    ghost coded = { named_code };

    ghost view = { λ c. record { formula = resolved_of c.formula; names = c.names } };
}

impl ReadContract {
    pub(crate) fn of(formula: Formula, names: Vec<Word>) -> ReadContract
        ensures { result ≡ record { formula = resolved_of formula; names = names.items } }
    {
        ReadContract {
            formula,
            names: Words::of(names),
        }
    }

    fn into_parts(self) -> (Formula, Words)
        ensures { record { formula = resolved_of result.0; names = result.1 } ≡ self }
    {
        (self.formula, self.names)
    }
}

/// The question of a holds file, with the contract as it was read.
#[derive(Drop)]
pub struct Asked {
    pub contract: ReadContract,
    pub cur: EffId,
    pub execution: Execution,
}

/// The same in its public form.
pub(crate) fn holding(asked: Asked) -> Holding
    ensures { asked_of result ≡ asked }
{
    let (formula, names) = asked.contract.into_parts();
    Holding {
        formula,
        names,
        cur: asked.cur,
        execution: asked.execution,
    }
}
