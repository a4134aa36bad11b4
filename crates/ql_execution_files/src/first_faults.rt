ghost use Rattle.std.specs.Prelude.{◌↔◌, List, ℕ};
ghost use Rattle.ql_lines.specs.Lines.{Ahead, texts_of};
ghost use Rattle.ql_lang.specs.declared.program.Program.{Program};
ghost use Rattle.ql_exec.specs.declared.effect.Effect.{Effect};
ghost use Rattle.ql_effect_lines.specs.declared.effect_line.EffectLine.{EffectLine};
ghost use Rattle.ql_effect_lines.specs.declared.rules.ReportRule.{ReportRule};
ghost use Rattle.ql_execution_files.specs.declared.report_fault.ReportFault.{ReportFault};
ghost use Rattle.ql_execution_files.specs.ExecutionFile.{FirstExecutionFault};
ghost use Rattle.ql_execution_files.specs.FirstFaults.{BeginsExecutionFile, BreaksExecutionRule, FirstTextFault};
ghost use Rattle.ql_execution_files.specs.Grammar.{IsExecutionText};
ghost use Rattle.ql_execution_files.specs.Readings.{SaysExecution};

/// The first fault of a file is that of the grammar.
///
/// It is the first line that breaks a rule after lines that begin a file of the program, or the file's end
/// (`fault`). With that line no file of the program begins any more (`none`). A file has an execution or a first
/// fault (`some`).
pub fn first_execution_faults_are_of_the_grammar()
    ensures fault { (p : Program) (file : Ahead) (f : ReportFault) → FirstExecutionFault p file f
        ↔ FirstTextFault p file f }
    ensures none { (p : Program) (lines : List (List ℕ)) (rule : ReportRule)
        → BreaksExecutionRule p lines rule → BeginsExecutionFile p lines → ⊥ }
    ensures some { (p : Program) (file : Ahead)
        → ((effects : List EffectLine) (x : List Effect) → IsExecutionText (texts_of file.lines) effects
        → SaysExecution p effects x → ⊥)
        → ((f : ReportFault) → FirstTextFault p file f → ⊥) → ⊥ }
{}
