// Texts of reports: the levels of a program's operations and transactions, or why a program has none; and the replies to
// a schedule's events with the execution that they made, as lines and as JSON.
// The one contract: each text is the specified one, and that in JSON reads back as the value made of the program, the
// names of the objects, the levels, the replies and the execution.
#![tactic(auto)]

mod atoms;
mod effects;
mod json_execution;
mod json_levels;
mod json_printing;
mod json_replies;
mod json_runs;
pub mod json_values;
mod levels;
mod parts;
mod refusals;
mod replies;
mod run;

pub use effects::print_effects;
pub use json_execution::json_effects;
pub use json_runs::json_run;
pub use levels::print_levels;
pub use parts::push_ids;
pub use refusals::{print_none_op, print_none_txn, print_strong_use};
pub use replies::print_reply;
pub use run::print_run;
