// Relative ground problems: the clause list of a target where all effects keep the levels of their operations.
// The one contract: where no assignment satisfies a target's relative problem, its contract holds in every execution
// in which all effects keep the levels.
#![tactic(auto)]

mod kept;
mod laws;
mod problem;
mod used;

pub use laws::refuted_relative_problems_are_met;
pub use problem::relative;
