ghost use Rattle.std.specs.Prelude.{◌≡◌};
ghost use Rattle.ql_machine.specs.declared.event.Event.{Event};
ghost use Rattle.ql_machine.specs.declared.reply.Reply.{Reply};
ghost use Rattle.ql_machine.specs.State.{Machine};
ghost use Rattle.ql_machine.specs.Rules.{Rules};
ghost use Rattle.ql_machine.specs.Steps.{IsStep};

/// The law that a step is determined: after a state and an event there is one state at most, and one
/// reply. That there is one isn't said.
pub fn steps_are_determined()
    ensures { (rules : Rules) (s : Machine) (event : Event) (after : Machine) (r : Reply)
        → IsStep rules s event after r
        → (other : Machine) (q : Reply) → IsStep rules s event other q → (after ≡ other) × (r ≡ q) }
{}
