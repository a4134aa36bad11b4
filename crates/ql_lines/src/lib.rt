// Line files: their lines, with their numbers, the fields of a line, and files of any format, read line by line.
// The one contract: reading a file returns what it says, or its first fault, which is a line and the rule that it breaks;
// no file has two of these, and none has neither. `Lines` yields the lines that aren't skipped, in order and each with its
// number, and `first_field` returns the parts of a line that stand between spaces; words, names, numbers and ids are read
// from the start of a line.
#![tactic(auto)]

mod fault;
mod fields;
mod format;
mod ids;
mod law;
mod leading;
mod lines;
mod read;
mod search;

pub use fault::{Broken, FileFault, LineFault};
pub use fields::{after_spaces, first_field};
pub use format::LineFormat;
pub use ids::ascending_ids;
pub use law::one_outcome;
pub use leading::{after_name, after_number, after_word};
pub use lines::{Line, Lines};
pub use read::read_file;
pub use search::bytes_before;
