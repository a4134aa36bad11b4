// Runs the events of a schedule, one after another, through a store; and a run in which one replica is watched.
// The one contract: the store after a schedule, and its replies, are those of the written machine's run, and so is what a
// watched replica received after each event, in that order.
#![tactic(auto)]

mod law;
mod run;
mod watched;

pub use law::{events_can_be_answered, steps_make_runs};
pub use run::{Run, run_schedule};
pub use watched::{Watched, watched_run};
