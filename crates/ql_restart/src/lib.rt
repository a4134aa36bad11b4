// The command that stops a replica's disk at some call, and recovers what the replica had journaled: from the bytes of both
// files to its text.
// The one contract: what is recovered is exactly the packages whose calls the disk did before, in the order in which they came.
#![tactic(auto)]

mod command;
mod journal;
mod recovered;

pub use command::restart_run;
