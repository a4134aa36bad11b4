// Schedules drawn from a number, for randomized testing.
// The one contract: the schedule for a number is the stated one, and one that a store can step through.
#![tactic(auto)]

mod draws;
mod event;
mod generate;
mod objects;

pub use generate::schedule_of;
