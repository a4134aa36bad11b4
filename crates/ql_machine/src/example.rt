ghost use Rattle.std.specs.Prelude.{List, ℕ};
ghost use Rattle.ql_machine.specs.declared.event.Event.TheVariants.{Deliver};
ghost use Rattle.ql_machine.specs.declared.reply.Reply.TheVariants.{Applies};
ghost use Rattle.ql_machine.specs.State.{Machine};
ghost use Rattle.ql_machine.specs.Steps.{IsStep};
ghost use Rattle.ql_machine.specs.Runs.{IsRun};
ghost use Rattle.ql_machine.specs.Example.{both_applied, both_written, events, replies, rules};

/// An example, which shows that the rules can be met: two writes are answered, the second message waits for
/// the first, and once that arrives both effects are applied (`run`). It isn't a step for the second message
/// to apply at once (`no_step`).
pub fn example_runs()
    ensures run { IsRun rules 2 events replies both_applied }
    ensures no_step { (after : Machine) (ids : List ℕ)
        → IsStep rules both_written (Deliver (record { 0 = 2 })) after (Applies ids) → ⊥ }
{}
