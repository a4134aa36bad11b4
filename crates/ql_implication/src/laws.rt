ghost use Rattle.std.specs.Prelude.{ℕ, List};
ghost use Rattle.ql_exec.specs.declared.effect.Effect.{Effect};
ghost use Rattle.ql_lang.specs.Formulas.{Resolved};
ghost use Rattle.ql_levels.specs.declared.level.Level.{Level};
ghost use Rattle.ql_levels.specs.declared.level.TxnLevel.{TxnLevel};
ghost use Rattle.ql_implication.specs.Executions.{IsImplied, IsImpliedTxn};
ghost use Rattle.ql_implication.specs.Countermodels.{IsCounter, IsTxnCounter};

/// The law that a level isn't enough where there is a countermodel.
pub fn countermodels_refute()
    ensures op { (types : List ℕ) (o : ℕ) (level : Level) (f : Resolved) (x : List Effect) (cur : ℕ)
        (places : List ℕ) → IsCounter types o level f x cur places → IsImplied types o level f → ⊥ }
    ensures txn { (types : List ℕ) (d : ℕ) (level : TxnLevel) (f : Resolved) (x : List Effect)
        (run : ℕ) (places : List ℕ) → IsTxnCounter types d level f x run places
        → IsImpliedTxn types level f → ⊥ }
{}
