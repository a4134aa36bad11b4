ghost use Rattle.std.specs.Prelude.{List, ℕ};
ghost use Rattle.ql_exec.specs.declared.effect.Effect.{Effect};
ghost use Rattle.ql_execution_files.specs.ExecutionFile.{IsExecutionFile};
ghost use Rattle.ql_lang.specs.declared.program.Program.{Program};
ghost use Rattle.ql_levels.specs.Lists.{LevelLists};
ghost use Rattle.ql_lines.specs.Lines.{ahead_from};
ghost use Rattle.ql_machine.specs.declared.reply.Reply.{Reply};
ghost use Rattle.ql_report.specs.RunTexts.{run_text};
ghost use Rattle.ql_verdicts.specs.Printable.{IsPrintable};
ghost use Rattle.ql_verdicts.specs.Renumbered.{IsRenumbered};

/// The text of a run is an execution's file, and reads back as the run's own execution: objects are numbered by their
/// first occurrence, and all else is the same.
pub fn printed_runs_are_read_again()
    ensures { (p : Program) (objects : List (List ℕ)) (levels : LevelLists) (replies : List Reply)
        (x : List Effect) → IsPrintable p objects x
        → (y : List Effect) × IsRenumbered x y × IsExecutionFile p (ahead_from 1 (run_text p objects levels replies x)) y }
{}
