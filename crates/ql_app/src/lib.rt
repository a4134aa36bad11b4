// The program without its process: it reads the files that its arguments name from a shelf, and writes the answer to a sink.
// The one contract: what `quelea` writes is what the arguments and the files' bytes allow with its status, and each status
// has its cause.
#![tactic(auto)]

mod holds;
mod outcome;
mod program;
mod proof;
mod text;
mod words;

pub use outcome::Limits;
pub use program::{carry_out, quelea};
pub use ql_reply::Status;
