ghost use Rattle.std.specs.Prelude.{◌≡◌, List, ℕ};
ghost use Rattle.ql_lines.specs.Lines.{Ahead, texts_of};
ghost use Rattle.ql_lang.specs.declared.program.Program.{Program};
ghost use Rattle.ql_exec.specs.declared.effect.Effect.{Effect};
ghost use Rattle.ql_effect_lines.specs.declared.effect_line.EffectLine.{EffectLine};
ghost use Rattle.ql_execution_files.specs.ExecutionFile.{IsExecutionFile};
ghost use Rattle.ql_execution_files.specs.Grammar.{IsExecutionText};
ghost use Rattle.ql_execution_files.specs.Readings.{SaysExecution};

/// A file says the execution of the effects that its lines spell.
///
/// The lines of a file that says an execution are those of effects that say it (`spelled`). Where the lines are
/// those of effects that say an execution, the file says it (`read`). Lines are those of at most one list of
/// effects (`tree`), and effects say at most one execution (`execution`).
pub fn execution_files_are_read()
    ensures spelled { (p : Program) (file : Ahead) (x : List Effect) → IsExecutionFile p file x
        → (effects : List EffectLine) × IsExecutionText (texts_of file.lines) effects
        × SaysExecution p effects x }
    ensures read { (p : Program) (file : Ahead) (effects : List EffectLine) (x : List Effect)
        → IsExecutionText (texts_of file.lines) effects → SaysExecution p effects x
        → IsExecutionFile p file x }
    ensures tree { (lines : List (List ℕ)) (effects others : List EffectLine)
        → IsExecutionText lines effects → IsExecutionText lines others → effects ≡ others }
    ensures execution { (p : Program) (effects : List EffectLine) (x y : List Effect)
        → SaysExecution p effects x → SaysExecution p effects y → x ≡ y }
{}
