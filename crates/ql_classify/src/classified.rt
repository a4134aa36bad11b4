ghost use Rattle.std.specs.Prelude.{◌≡◌, ◌<◌, length, option_copied, slice_get, Some};
ghost use Rattle.ql_ground.specs.declared.goal.Goal.{Goal};
ghost use Rattle.ql_typing.specs.Operations.{all_ops};
ghost use Rattle.ql_sat.specs.Answer.{AreNumbered};
ghost use Rattle.ql_classify.specs.Goals.{IsRefutedBy};
ghost use Rattle.ql_classify.specs.Least.{AreLevelsOf};
ghost use Rattle.ql_classify.specs.Kept.{IsClassified};
ghost use Rattle.ql_classify.specs.Targets.{IsLowerAnswer, goals_at, goals_below, targets};

use crate::evidence::Evidence;
use ql_cnf::Assignment;
use ql_levels::Levels;
use ql_refute::Refutation;
use ql_typing::Typed;
use std::marker::Model;

/// A program with the least level of each target, and for each the evidence. Its targets are its
/// operations in order, and then its declared transactions in order.
pub struct Classified<'a> {
    typed: &'a Typed,
    levels: Levels,
    evidence: Vec<Evidence>,
}

// Written out, so that a crate above proves one call for it.
impl Drop for Classified<'_> {
    fn drop(self) {
        let Classified {
            typed: _,
            levels: _,
            evidence: _,
        } = self;
    }
}

impl<'a> Model for Classified<'a> {
    ghost use Rattle.std.specs.Coded.{codes};
    ghost use Rattle.ql_lang.specs.contracts.expression.ExprNode as expression;
    ghost use Rattle.ql_lang.specs.contracts.contract.Prop as prop;
    ghost use Rattle.ql_lang.specs.contracts.relation.Rel as rel;
    ghost use Rattle.ql_classify.specs.Classification.{Classification};

    ghost Value = { Classification };

    ghost coded = { Prim.hlevel (codes, expression.the_row.coded, prop.the_row.coded, rel.the_row.coded) };

    ghost use Rattle.ql_classify.specs.Kept.{IsClassified};

    ghost view = { λ c. record { program = c.typed.now.program; levels = c.levels } };

    ghost invariant = { λ c. IsClassified c.typed.now.program c.levels c.evidence.items };
}

impl<'a> Classified<'a> {
    pub(crate) fn of(typed: &'a Typed, levels: Levels, evidence: Vec<Evidence>) -> Classified<'a>
        requires { IsClassified typed.now.program levels evidence.items }
        ensures { result ≡ record { program = typed.now.program; levels = levels } }
    {
        Classified {
            typed,
            levels,
            evidence,
        }
    }

    /// The program.
    pub fn typed(&self) -> &'a Typed
        ensures { result.now.program ≡ self.now.program }
    {
        self.typed
    }

    /// The level of each operation and of each declared transaction.
    pub fn levels(&self) -> &Levels
        ensures same { result.now ≡ self.now.levels }
        ensures ops { length self.now.levels.ops ≡ length (all_ops self.now.program.types) }
        ensures txns { length self.now.levels.txns ≡ length self.now.program.txns }

        // Each level implies its target's contract in every execution of the program, while each lower one fails in
        // some; and no transaction uses a strong operation.
        ensures levels { AreLevelsOf self.now.program self.now.levels }
    {
        &self.levels
    }

    /// A refutation of the ground problem of a target at its level.
    pub fn refutation(&self, target: u32) -> &Refutation
        requires { target < targets self.now.program }
        ensures refuted { (g : Goal) × (slice_get (goals_at self.now.levels) target ≡ Some g)
            × IsRefutedBy self.now.program g result.now.lines }

        // No hint has the number 0.
        ensures numbered { AreNumbered result.now.lines }
    {
        &evidence_of(&self.evidence, target).refutation
    }

    /// An assignment that satisfies the ground problem of a target at a level below its own. The step is
    /// the level's index, 0 for the lowest; there is none if that isn't below the target's level.
    pub fn lower(&self, target: u32, step: u32) -> Option<&Assignment>
        requires { target < targets self.now.program }
        ensures { (g : Goal) × (slice_get (goals_at self.now.levels) target ≡ Some g)
            × IsLowerAnswer self.now.program (slice_get (goals_below g) step)
            (option_copied result) }
    {
        assignment_at(&evidence_of(&self.evidence, target).lower, step)
    }
}

fn evidence_of(kept: &[Evidence], target: u32) -> &Evidence
    requires { target < length kept.now }
    ensures { slice_get kept.now target ≡ Some result.now }
{
    &kept[target as usize]
}

fn assignment_at(lower: &[Assignment], step: u32) -> Option<&Assignment>
    ensures { option_copied result ≡ slice_get lower.now step }
{
    lower.get(step as usize)
}
