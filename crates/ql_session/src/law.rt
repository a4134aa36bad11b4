ghost use Rattle.std.specs.Prelude.{◌≡◌, ◌+◌, ◌∷◌, ◌++◌, [], List, length};
ghost use Rattle.ql_base.specs.declared.ids.ObjId.{ObjId};
ghost use Rattle.ql_base.specs.declared.ids.SessId.{SessId};
ghost use Rattle.ql_exec.specs.declared.effect.Effect.{Effect};
ghost use Rattle.ql_exec.specs.Effects.{effect_at};
ghost use Rattle.ql_exec.specs.Execution.{IsOn};
ghost use Rattle.ql_machine.specs.Blocking.{IsOf};
ghost use Rattle.ql_machine.specs.Sets.{AreThose};
ghost use Rattle.ql_session.specs.Notes.{effects_by, effects_on};
ghost use Rattle.ql_session.specs.Executions.{note_of, notes_of};

/// The law of the notes of an execution, one for each effect in order. They have exactly the effects that a session
/// made on an object, and exactly the effects on an object, in ascending order. A longer execution has one more note.
pub fn notes_of_executions()
    ensures by { (x : List Effect) (s : SessId) (o : ObjId)
        → AreThose (λ a. IsOn o (effect_at x a) × IsOf s (effect_at x a))
        (effects_by (notes_of x) s o) }
    ensures on { (x : List Effect) (o : ObjId)
        → AreThose (λ a. IsOn o (effect_at x a)) (effects_on (notes_of x) o) }
    ensures longer { (x : List Effect) (e : Effect)
        → notes_of (x ++ e ∷ []) ≡ notes_of x ++ note_of (length x + 1) e ∷ [] }
{}
