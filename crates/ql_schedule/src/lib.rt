// Schedules as texts: how many replicas there are, the objects with their types, and the events.
// Its one contract: reading a file returns the schedule that it spells, or its first fault, and never
// both; a schedule that is printed is read back; and a schedule that was read is one that a store can step
// through, whose objects have distinct names.
#![tactic(auto)]

mod argument;
mod event_line;
mod event_parts;
mod fault;
mod format;
mod header;
mod judging;
mod known;
mod law;
mod lists;
mod making;
mod parse;
mod parts;
mod print;
mod reading;
mod rules;
mod schedule;

pub use fault::SchedFault;
pub use law::{objects_have_own_names, one_schedule, printed_is_read_again};
pub use parse::parse_schedule;
pub use print::print_schedule;
pub use schedule::{Events, Schedule, TypeIds};
