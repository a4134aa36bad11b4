ghost use Rattle.std.specs.Prelude.{ℕ, true, false, List};
ghost use Rattle.ql_cnf.specs.Satisfaction.{IsUnsatisfiable};
ghost use Rattle.ql_lang.specs.Formulas.{Resolved};
ghost use Rattle.ql_levels.specs.declared.level.Level.{Level};
ghost use Rattle.ql_levels.specs.declared.level.TxnLevel.{TxnLevel};
ghost use Rattle.ql_ground.specs.Ground.{op_problem, txn_problem};
ghost use Rattle.ql_ground.specs.Implication.{IsContractOf, Implies, ImpliesTxn};

/// The law of operations' problems: where no assignment satisfies one, then in every execution of the program,
/// of any length, each effect of the operation for which the level's guarantee holds meets the contract.
pub fn refuted_op_is_implied()
    ensures { (types : List ℕ) (o : ℕ) (level : Level) (f : Resolved) → IsContractOf types true f
        → IsUnsatisfiable (op_problem types o level f) → Implies types o level f }
{}

/// The law of transactions' problems: the same of each begun transaction.
pub fn refuted_txn_is_implied()
    ensures { (types : List ℕ) (level : TxnLevel) (f : Resolved) → IsContractOf types false f
        → IsUnsatisfiable (txn_problem types level f) → ImpliesTxn types level f }
{}
