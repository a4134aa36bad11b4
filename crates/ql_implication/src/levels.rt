ghost use Rattle.std.specs.Prelude.{ℕ, List};
ghost use Rattle.ql_exec.specs.declared.effect.Effect.{Effect};
ghost use Rattle.ql_exec.specs.Execution.{IsExecution};
ghost use Rattle.ql_formula.specs.Truth.{Holds, HoldsTxn};
ghost use Rattle.ql_levels.specs.Formulas.{formula_of, txn_formula_of};
ghost use Rattle.ql_levels.specs.declared.level.Level.TheVariants.{Causal, Eventual, Strong, Wide};
ghost use Rattle.ql_levels.specs.declared.level.TxnLevel.TheVariants.{Mav, Rc, Rr};

/// The law that in every execution each level guarantees all that the levels below it do.
pub fn higher_levels_promise_more()
    ensures strong { (x : List Effect) → IsExecution x → (cur : ℕ) → Holds x (formula_of Strong) cur → Holds x (formula_of Wide) cur }
    ensures wide { (x : List Effect) → IsExecution x → (cur : ℕ) → Holds x (formula_of Wide) cur
        → Holds x (formula_of Causal) cur }
    ensures causal { (x : List Effect) → IsExecution x → (cur : ℕ) → Holds x (formula_of Causal) cur
        → Holds x (formula_of Eventual) cur }
    ensures repeatable { (x : List Effect) → IsExecution x → (run : ℕ)
        → HoldsTxn x (txn_formula_of Rr) run → HoldsTxn x (txn_formula_of Mav) run }
    ensures monotonic { (x : List Effect) → IsExecution x → (run : ℕ)
        → HoldsTxn x (txn_formula_of Mav) run → HoldsTxn x (txn_formula_of Rc) run }
{}
