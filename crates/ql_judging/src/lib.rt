// The command that judges an execution of a source, from the bytes of both files to its text.
// The one contract: the text is the one that the meaning of the files allows with its status.
#![tactic(auto)]

mod breach_line;
mod execution_fault;
mod member;
mod verifying;

pub use breach_line::push_places;
pub use verifying::verify;
