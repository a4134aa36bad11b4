// Countermodels: an execution for each assignment that satisfies a goal's ground problem, in which each class of equal
// constants is a block of effects.
// The one contract: the execution fits the program, the level's guarantee holds in it, and the contract is false.
#![tactic(auto)]

mod blocks;
mod classes;
mod constants;
mod construction;
mod counter;
mod drafts;
mod execution;
mod laws;
mod naming;
mod pattern_laws;
mod places;
mod slot;

pub use construction::countermodel;
pub use counter::{At, Counter};
pub use laws::{satisfied_goals_fail, satisfied_problems_have_countermodels};
pub use pattern_laws::{blocks_show_relations, blocks_show_transactions};
pub use slot::{Extra, Part, Slot};
