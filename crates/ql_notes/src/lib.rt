// Notes on how a call ended, for people: the position of a fault, its line with a mark, a sentence on what is wrong,
// what was expected there, and where the other place is if two contradict each other. They are made of what the answer
// is about and of the files' bytes as they were read. No answer depends on them.
// The one contract: an offset's position is its line, counted by line feeds, and the offset at which that line begins;
// an excerpt is the file's line, or of a long one its part around the offset, with marks right below the bytes from the
// offset on; and every other function is safe and returns, whatever the files contain.
#![tactic(auto)]

mod advice;
mod arguments;
mod breaches;
mod clashes;
mod contracts;
mod effects;
mod excerpt;
mod forms;
mod help;
mod kinds;
mod kinds_of_files;
mod lexical;
mod lines;
mod names;
mod notes;
mod pieces;
mod place;
mod refusals;
mod sources;
mod syntax;
mod system;
mod text;
mod usage;
mod verdicts;
mod words;

pub use excerpt::{File, Spot, push_fault};
pub use help::HELP;
pub use notes::note;
pub use system::write_notes;
