ghost use Rattle.std.specs.Prelude.{ℕ, List};
ghost use Rattle.ql_cnf.specs.Satisfaction.{ClauseList};
ghost use Rattle.ql_lang.specs.Formulas.{Resolved};
ghost use Rattle.ql_lang.specs.declared.program.Program.{Program};
ghost use Rattle.ql_levels.specs.declared.level.Level.{Level};
ghost use Rattle.ql_levels.specs.declared.level.TxnLevel.{TxnLevel};
ghost use Rattle.ql_ground.specs.Implication.{Implies, ImpliesTxn};
ghost use Rattle.ql_ground.specs.OfPrograms as ground;
ghost use Rattle.ql_ground.specs.declared.goal.Goal.{Goal};
ghost use Rattle.ql_implication.specs.OfPrograms.{GivesContract};
ghost use Rattle.ql_implication.specs.Executions.{IsImplied, IsImpliedTxn};

/// The law that carries valid implication over to the store's executions; it is proved of refuted problems over
/// effects of plain numbers. `op` is the law for operations, `txn` for transactions, and `goal` for a goal of a
/// program that has a ground problem.
pub fn implied_in_executions()
    ensures op { (types : List ℕ) (o : ℕ) (level : Level) (f : Resolved) → Implies types o level f
        → IsImplied types o level f }
    ensures txn { (types : List ℕ) (level : TxnLevel) (f : Resolved) → ImpliesTxn types level f
        → IsImpliedTxn types level f }
    ensures goal { (p : Program) (g : Goal) (c : ClauseList) → ground.IsProblemOf p g c
        → ground.IsImplied p g → GivesContract p g }
{}
