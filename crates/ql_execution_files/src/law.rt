ghost use Rattle.std.specs.Prelude.{◌≡◌, List};
ghost use Rattle.ql_lines.specs.Lines.{Ahead};
ghost use Rattle.ql_lang.specs.declared.program.Program.{Program};
ghost use Rattle.ql_exec.specs.declared.effect.Effect.{Effect};
ghost use Rattle.ql_execution_files.specs.declared.report_fault.ReportFault.{ReportFault};
ghost use Rattle.ql_execution_files.specs.ExecutionFile.{FirstExecutionFault, IsExecutionFile};

/// A file says one execution of a program or has one first fault, never both, and never neither.
pub fn one_execution()
    ensures one { (p : Program) (file : Ahead) (x y : List Effect) → IsExecutionFile p file x
        → IsExecutionFile p file y → x ≡ y }
    ensures fault { (p : Program) (file : Ahead) (f g : ReportFault) → FirstExecutionFault p file f
        → FirstExecutionFault p file g → f ≡ g }
    ensures apart { (p : Program) (file : Ahead) (x : List Effect) (f : ReportFault)
        → IsExecutionFile p file x → FirstExecutionFault p file f → ⊥ }
    ensures some { (p : Program) (file : Ahead) → ((x : List Effect) → IsExecutionFile p file x → ⊥)
        → ((f : ReportFault) → FirstExecutionFault p file f → ⊥) → ⊥ }
{}
