// The least levels of a source's targets, each with countermodels that show why no lower level is enough, from the source's
// bytes to the text.
// The one contract: each block of the text is a countermodel of its target at the level that its first line names.
#![tactic(auto)]

mod counter_text;
mod explanation;
mod goals;
mod objects;
mod refusal;
mod targets;

pub use counter_text::{level_text, push_counter, vars_of};
pub use explanation::classify_with_reasons;
pub use objects::object_names;
pub use targets::push_target_line;
