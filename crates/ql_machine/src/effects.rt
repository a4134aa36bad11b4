ghost use Rattle.std.specs.Prelude.{◌≡◌, ℕ, Bool, true, List, Some};
ghost use Rattle.std.specs.List.{list_all};
ghost use Rattle.ql_base.specs.declared.ids.ObjId.{ObjId};
ghost use Rattle.ql_base.specs.declared.ids.OpId.{OpId};
ghost use Rattle.ql_exec.specs.declared.effect.Effect.{Effect};
ghost use Rattle.ql_exec.specs.Effects.{effect_at};
ghost use Rattle.ql_exec.specs.Folding.{seen_in_order};
ghost use Rattle.ql_machine.specs.declared.event.Event.{Event};
ghost use Rattle.ql_machine.specs.declared.reply.Reply.{Reply};
ghost use Rattle.ql_machine.specs.State.{Machine};
ghost use Rattle.ql_machine.specs.Rules.{Rules};
ghost use Rattle.ql_machine.specs.Runs.{IsRun};
ghost use Rattle.ql_machine.specs.Promised.{asks};

/// The law of where effects come from. If something holds of the object and the operation of every call of a
/// schedule, it holds of those of every effect of its run (`asked`). The answer and payload of each effect are
/// computed from the effects that it sees, in order of stamp and session, in the last execution too
/// (`answered`).
pub fn calls_make_effects()
    ensures asked { (rules : Rules) (test : ObjId → OpId → Bool) (n : ℕ) (events : List Event)
        (replies : List Reply) (last : Machine) → IsRun rules n events replies last
        → list_all (asks test) events ≡ true → (a : ℕ) (e : Effect)
        → effect_at last.effects a ≡ Some e → test e.object e.op ≡ true }
    ensures answered { (rules : Rules) (n : ℕ) (events : List Event) (replies : List Reply)
        (last : Machine) → IsRun rules n events replies last
        → (a : ℕ) (e : Effect) → effect_at last.effects a ≡ Some e
        → rules.answer e.op e.args (seen_in_order last.effects e.seen)
        ≡ record { answer = e.answer; payload = e.payload } }
{}
