ghost use Rattle.std.specs.Prelude.{◌≡◌, Result};
ghost use Rattle.ql_lines.specs.Lines.{Ahead};
ghost use Rattle.ql_lines.specs.declared.fault.Broken.{Broken};
ghost use Rattle.ql_holds_files.specs.declared.asked.Asked.{Asked};
ghost use Rattle.ql_holds_files.specs.declared.rules.HoldsRule.{HoldsRule};
ghost use Rattle.ql_holds_files.specs.HoldsFile.{HoldsOutcome};

/// Each file has either one question or one first fault.
pub fn one_holding()
    ensures one { (file : Ahead) (x y : Result Asked (Broken HoldsRule)) → HoldsOutcome file x
        → HoldsOutcome file y → x ≡ y }
    ensures some { (file : Ahead)
        → ((x : Result Asked (Broken HoldsRule)) → HoldsOutcome file x → ⊥) → ⊥ }
{
    ql_parse::one_answer();
}
