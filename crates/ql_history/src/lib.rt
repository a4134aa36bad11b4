// What happened in a run, as a picture shows it: read from the text that `run` prints or from any execution, and from
// the schedule of the run.
// The one contract: reading ends for every text, with what it says or with its first faulty line.
#![tactic(auto)]

mod begun;
mod effect;
mod fault;
mod history;
mod matching;
mod messages;
mod open;
mod part;
mod plan;
mod reply;
mod run;
mod seat;
mod step;

pub use begun::Begun;
pub use effect::Effect;
pub use fault::{DrawnFault, DrawnRule};
pub use history::{Cause, Column, Happening, History, history_of};
pub use messages::{Fate, Passage, Span, Spot};
pub use plan::{Plan, read_plan};
pub use reply::{Reply, ReplyWord};
pub use run::{Level, Run, read_run};
pub use seat::Seat;
pub use step::{Caller, Step};
