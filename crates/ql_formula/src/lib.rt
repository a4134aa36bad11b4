// The truth of contracts in an execution.
// The one contract: the tables are the relations of the execution, and a formula is reported to hold
// exactly if its body is true at every choice of effects; otherwise the first false choice is
// reported.
#![tactic(auto)]

mod lasts;
mod places;
mod relations;
mod row;
mod rows;
mod search;
mod transitive;
mod truth;

pub use places::Places;
pub use relations::Relations;
pub use transitive::closures_are_transitive;
pub use truth::{holds_at, holds_txn};
