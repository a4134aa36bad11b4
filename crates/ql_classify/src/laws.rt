ghost use Rattle.std.specs.Prelude.{◌≡◌, ℕ, []};
ghost use Rattle.ql_lang.specs.declared.program.Program.{Program};
ghost use Rattle.ql_levels.specs.declared.level.Level.{Level};
ghost use Rattle.ql_levels.specs.declared.level.TxnLevel.{TxnLevel};
ghost use Rattle.ql_ground.specs.declared.goal.Goal.{Goal};
ghost use Rattle.ql_typing.specs.Programs.{program_faults};
ghost use Rattle.ql_classify.specs.Least.{LowerFail, TopFails};
ghost use Rattle.ql_classify.specs.Outcome.{FirstFails, IsAccepted, all_tests};
ghost use Rattle.ql_classify.specs.Targets.{IsLeastLevel, IsOpLevel, IsTxnLevel};
ghost use Rattle.ql_classify.specs.declared.classless.Classless.{Classless};

/// The law that a program is accepted or refused and not both. So, running out of memory aside, `classify` returns
/// levels exactly if the program is accepted, and refuses it exactly if a test fails.
pub fn accepted_is_not_refused()
    ensures { (p : Program) (e : Classless) → IsAccepted p → FirstFails p (all_tests p) e → ⊥ }
{}

/// The law that least levels are unique.
pub fn least_levels_are_unique()
    ensures op { (p : Program) (o : ℕ) (l k : Level) → IsOpLevel p o l → IsOpLevel p o k → l ≡ k }
    ensures txn { (p : Program) (d : ℕ) (l k : TxnLevel) → IsTxnLevel p d l → IsTxnLevel p d k
        → l ≡ k }
{}

/// The law of least levels. If a level is a target's least, each lower one fails in some execution of the program; and
/// if none is enough, which is the first test that fails, the highest does.
pub fn lower_levels_fail()
    ensures lower { (p : Program) → program_faults p ≡ [] → (g : Goal) → IsLeastLevel p g → LowerFail p g }
    ensures none { (p : Program) → program_faults p ≡ [] → (e : Classless) → FirstFails p (all_tests p) e → TopFails p e }
{}
