ghost use Rattle.std.specs.Prelude.{◌≡◌, ◌<◌, ℕ, List, Some, length, slice_get};
ghost use Rattle.ql_base.specs.declared.ids.DeclId.{DeclId};
ghost use Rattle.ql_exec.specs.declared.effect.Effect.{Effect};
ghost use Rattle.ql_exec.specs.Effects.{effect_at};
ghost use Rattle.ql_exec.specs.Folding.{seen_in_order};
ghost use Rattle.ql_eval.specs.Folds.{answered_of};
ghost use Rattle.ql_formula.specs.Truth.{Holds, HoldsTxn};
ghost use Rattle.ql_lang.specs.Formulas.{Resolved};
ghost use Rattle.ql_lang.specs.declared.program.Program.{Program};
ghost use Rattle.ql_levels.specs.Lists.{LevelLists};
ghost use Rattle.ql_typing.specs.Operations.{op_contracts, op_kinds, txn_contracts};
ghost use Rattle.ql_classify.specs.Least.{AreEnough};
ghost use Rattle.ql_implication.specs.Executions.{FitsProgram};
ghost use Rattle.ql_machine.specs.declared.event.Event.{Event};
ghost use Rattle.ql_machine.specs.declared.reply.Reply.{Reply};
ghost use Rattle.ql_machine.specs.State.{Machine};
ghost use Rattle.ql_machine.specs.Runs.{IsRun};
ghost use Rattle.ql_machine.specs.Promised.{IsUnderName};
ghost use Rattle.ql_running.specs.Stores.{IsScheduleFor, rules_of};

/// The law of contracts in runs. For every schedule whose calls are of operations of their objects' types, the
/// effects of its run are an execution of the program (`fits`), and each answer is the fold of its type over
/// exactly the effects that it sees (`answers`). At levels that guarantee the contracts, each effect then meets the
/// written contract of its operation (`operations`), and each begun transaction that of its declared name, even one
/// without effects (`transactions`).
pub fn runs_meet_contracts()
    ensures fits { (p : Program) (levels : LevelLists) (kinds : List ℕ) (n : ℕ)
        (events : List Event) (replies : List Reply) (last : Machine)
        → IsRun (rules_of p levels) n events replies last
        → IsScheduleFor p kinds events → FitsProgram (op_kinds p.types) last.effects }
    ensures answers { (p : Program) (levels : LevelLists) (n : ℕ) (events : List Event)
        (replies : List Reply) (last : Machine) → IsRun (rules_of p levels) n events replies last
        → (a : ℕ) (e : Effect) → effect_at last.effects a ≡ Some e
        → answered_of p.types e.op.0 e.args (seen_in_order last.effects e.seen)
        ≡ record { answer = e.answer; payload = e.payload } }
    ensures operations { (p : Program) (levels : LevelLists) (kinds : List ℕ) (n : ℕ)
        (events : List Event) (replies : List Reply) (last : Machine)
        → IsRun (rules_of p levels) n events replies last
        → IsScheduleFor p kinds events → AreEnough p levels
        → (a : ℕ) (e : Effect) → effect_at last.effects a ≡ Some e → (f : Resolved)
        × (slice_get (op_contracts p.types) e.op.0 ≡ Some f) × Holds last.effects f a }
    ensures transactions { (p : Program) (levels : LevelLists) (kinds : List ℕ) (n : ℕ)
        (events : List Event) (replies : List Reply) (last : Machine)
        → IsRun (rules_of p levels) n events replies last
        → IsScheduleFor p kinds events → AreEnough p levels
        → (run : ℕ) (decl : DeclId) → decl.0 < length p.txns → IsUnderName last.effects run decl
        → (f : Resolved) × (slice_get (txn_contracts p) decl.0 ≡ Some f) × HoldsTxn last.effects f run }
{}
