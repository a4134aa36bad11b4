// What several tests use: tables of cases, sources, the program of a source, and effects. A table is a text with one
// case per line: a question, an arrow, and the expected answer.
// It has no contract of its own: only test crates and measurements depend on it.
#![tactic(auto)]

mod answers;
mod effects;
mod fields;
mod program;
mod sources;
mod table;
mod values;

pub use answers::{spelled, with_number};
pub use effects::{draft, id_set, push};
pub use fields::{field, id_set_of, number};
pub use program::declared;
pub use sources::{BANK, SHOP};
pub use table::check_table;
pub use values::push_values;
