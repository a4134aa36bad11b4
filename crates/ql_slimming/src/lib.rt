// The command that keeps what is stable after a schedule's run, and answers from what is left: from the bytes of both files
// to its text.
// The one contract: each answer is the fold over all that the replica has applied.
#![tactic(auto)]

mod answers;
mod collecting;
mod command;
mod keeping;
mod stability;
mod views;

pub use command::slim_run;
