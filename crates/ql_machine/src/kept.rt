ghost use Rattle.std.specs.Prelude.{ℕ};
ghost use Rattle.ql_machine.specs.declared.event.Event.{Event};
ghost use Rattle.ql_machine.specs.declared.reply.Reply.{Reply};
ghost use Rattle.ql_machine.specs.State.{Machine, empty};
ghost use Rattle.ql_machine.specs.Rules.{Promises, Rules};
ghost use Rattle.ql_machine.specs.Steps.{IsStep};
ghost use Rattle.ql_machine.specs.Kept.{Keeps};

/// The law of the invariant of states, for a store that has it in its type: the initial state has it
/// (`start`), and every step keeps it (`step`).
pub fn steps_keep_all()
    ensures start { (promises : Promises) (n : ℕ) → Keeps promises n (empty n) }
    ensures step { (rules : Rules) (n : ℕ) (s : Machine) → Keeps rules.promises n s
        → (event : Event) (after : Machine) (r : Reply) → IsStep rules s event after r
        → Keeps rules.promises n after }
{}
