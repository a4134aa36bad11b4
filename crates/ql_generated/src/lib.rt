// The commands on generated schedules, from the bytes of a source to their texts.
// The one contract: the schedule that is printed is the stated one of its number and is read again as that, and what is
// counted is its run, in which every contract of the source holds.
#![tactic(auto)]

mod generation;
mod law;
mod soaking;
mod summary;

pub use generation::generate;
pub use law::{each_event_is_counted, generated_schedules_are_read};
pub use soaking::soak;
