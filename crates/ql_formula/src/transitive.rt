ghost use Rattle.std.specs.Prelude.{List};
ghost use Rattle.ql_exec.specs.declared.effect.Effect.{Effect};
ghost use Rattle.ql_exec.specs.Execution.{IsExecution};
ghost use Rattle.ql_exec.specs.Relations.{hb, hb_step, hbo, hbo_step};
ghost use Rattle.ql_formula.specs.TransitiveClosures.{IsTransitiveClosure};

/// In an execution happens-before, which is defined by recursion on the later effect, is the transitive closure of
/// session order and visibility, and happens-before within one object is that of the two within it.
pub fn closures_are_transitive()
    ensures across { (x : List Effect) → IsExecution x → IsTransitiveClosure (hb_step x) (hb x) }
    ensures on_one_object { (x : List Effect) → IsExecution x
        → IsTransitiveClosure (hbo_step x) (hbo x) }
{}
