ghost use Rattle.std.specs.Prelude.{◌≡◌, List, IfOk};
ghost use Rattle.ql_base.specs.declared.ids.OpId.{OpId};
ghost use Rattle.ql_value.specs.declared.value.Value.{Value};
ghost use Rattle.ql_exec.specs.declared.effect.Effect.{Effect};
ghost use Rattle.ql_exec.specs.declared.folder.Answered.{Answered};
ghost use Rattle.ql_exec.specs.Folding.{seen_in_order, AreOnOneObject};

use crate::effect::Payload;
use crate::execution::Execution;
use ql_base::{IdSet, NoMemory, OpId};
use ql_value::{Value, Values};

/// What a call returns, and what its effect carries.
#[derive(Drop)]
pub struct Answered {
    pub answer: Value,
    pub payload: Payload,
}

/// Answers calls of operations from the effects that they see.
pub trait Folder {
    // The answer for an operation, its arguments and the seen effects in order of stamp and session.
    ghost answered: { Self → OpId → List Value → List Effect → Answered };

    // Whether there is an answer for these.
    ghost able: { Self → OpId → List Value → List Effect → Type 0 };

    /// The answer of a call that sees these effects, which are on one object.
    fn answer(
        &self,
        op: OpId,
        args: &Values,
        execution: &Execution,
        seen: &IdSet,
    ) -> Result<Answered, NoMemory>
        requires seen { AreOnOneObject execution.now seen.now }
        requires able { able self.now op args.now (seen_in_order execution.now seen.now) }
        ensures { IfOk result
            (λ given. given ≡ answered self.now op args.now (seen_in_order execution.now seen.now)) };
}
