ghost use Rattle.std.specs.Prelude.{◌≡◌, ◌<◌, true, Some, ℕ, List};
ghost use Rattle.ql_exec.specs.declared.effect.Effect.{Effect};
ghost use Rattle.ql_exec.specs.Effects.{effect_at};
ghost use Rattle.ql_exec.specs.Execution.{IsExecution, stamp_at};
ghost use Rattle.ql_exec.specs.Relations.{hb_step};

/// Stamps are logical clocks (Lamport 1978): an effect that is seen, or that is earlier in the session, has
/// a lower one. So no two effects of a session have the same stamp.
pub fn stamps_ascend()
    ensures ascend { (x : List Effect) → IsExecution x → (a b : ℕ) → hb_step x a b ≡ true
        → stamp_at x a < stamp_at x b }
    ensures apart { (x : List Effect) → IsExecution x → (a b : ℕ) (e f : Effect)
        → effect_at x a ≡ Some e → effect_at x b ≡ Some f
        → e.session ≡ f.session → e.stamp ≡ f.stamp → a ≡ b }
{}
