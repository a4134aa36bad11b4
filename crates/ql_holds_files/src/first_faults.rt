ghost use Rattle.std.specs.Prelude.{◌↔◌, Err, List, ℕ};
ghost use Rattle.ql_lines.specs.declared.fault.Broken.{Broken};
ghost use Rattle.ql_lines.specs.Lines.{Ahead};
ghost use Rattle.ql_holds_files.specs.HoldsFile.{HoldsOutcome};
ghost use Rattle.ql_holds_files.specs.declared.rules.HoldsRule.{HoldsRule};
ghost use Rattle.ql_holds_files.specs.FirstFaults.{BeginsKeeping, BreaksHoldsRule, FirstHoldsFault};

/// The first fault of a file is that of the grammar.
///
/// It is the first line that breaks a rule after lines that begin a file which keeps the rules (`fault`). With that
/// line no such file begins any more (`none`).
pub fn first_faults_are_of_the_grammar()
    ensures fault { (file : Ahead) (f : Broken HoldsRule) → HoldsOutcome file (Err f)
        ↔ FirstHoldsFault file f }
    ensures none { (lines : List (List ℕ)) (rule : HoldsRule) → BreaksHoldsRule lines rule
        → BeginsKeeping lines → ⊥ }
{
    ql_parse::one_answer();
}
