// The arguments of a program's command line, and its reply: a status, one text, and what a note on it is
// about. The one contract: the line of a bad
// file names its part, the offset or line, and the rule; that of a file which couldn't be read names the file; a reply
// is written whole, or the sink failed.
#![tactic(auto)]

mod args;
mod bad;
mod ended;
mod fault;
mod reply;
mod status;
mod whole;
mod write;

pub use args::{arguments, is_file_name, read_arguments};
pub use bad::bad_line;
pub use ended::{Answered, Ended};
pub use fault::{Fault, Part, Rule};
pub use reply::{Cause, Refused, Reply};
pub use status::{Status, exit_number};
pub use whole::unread;
pub use write::write_reply;
