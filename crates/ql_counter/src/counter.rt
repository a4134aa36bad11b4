use ql_base::{EffId, RunId};
use ql_exec::Execution;
use ql_formula::Places;

/// Where a contract fails: at an effect, or of a begun transaction.
#[derive(Clone, Copy)]
pub enum At {
    Effect(EffId),
    Run(RunId),
}

/// A countermodel of a goal: an execution in which the level's guarantee holds, and the contract is false with these
/// effects for its variables.
pub struct Counter {
    pub execution: Execution,
    pub at: At,
    pub places: Places,
}

// Written out, so that a crate above proves one call for it.
impl Drop for Counter {
    fn drop(self) {
        let Counter {
            execution: _,
            at: _,
            places: _,
        } = self;
    }
}
