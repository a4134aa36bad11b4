// What happened in a run: the effects in their order, each with the earlier effects that it saw.
// The one contract: an execution keeps that every effect sees only earlier effects on its own
// object, that transactions are unbroken in their sessions, and that each effect has its Lamport
// stamp; and `push` refuses exactly what would break that.
#![tactic(auto)]

mod clocks;
mod copying;
mod effect;
mod execution;
mod fault;
mod folder;
mod judging;
mod latest;

pub use clocks::stamps_ascend;
pub use copying::{copy_payload, copy_values};
pub use effect::{Draft, Effect, Member, Payload};
pub use execution::Execution;
pub use fault::ExecFault;
pub use folder::{Answered, Folder};
