// The least level of each operation and of each declared transaction of a program, with its evidence.
// The one contract: each level is the first whose ground problem is refuted, it implies its contract in every
// execution, and each lower one fails in some; or else the first target that has no level, or strong operation
// that a transaction uses, is reported.
#![tactic(auto)]

mod classified;
mod classless;
mod evidence;
mod finding;
mod judge;
mod laws;
mod uses;

pub use classified::Classified;
pub use classless::Classless;
pub use finding::{Finding, Unmet, find_target};
pub use judge::classify;
pub use laws::{accepted_is_not_refused, least_levels_are_unique, lower_levels_fail};
