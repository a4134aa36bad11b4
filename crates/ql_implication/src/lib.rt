// What a level implies in executions: valid implication, and its countermodels.
// The one contract: a level whose ground problem is refuted is enough in every execution, one that has a countermodel
// isn't, and higher levels guarantee more.
#![tactic(auto)]

mod laws;
mod levels;
mod transfer;

pub use laws::countermodels_refute;
pub use levels::higher_levels_promise_more;
pub use transfer::implied_in_executions;
