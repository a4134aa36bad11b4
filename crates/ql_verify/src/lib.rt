// Judging whole executions: each operation's contract at each of its effects, and each transaction's of each begun one.
// The one contract: the first breach is reported, or that there is none, if the work isn't above its limit.
#![tactic(auto)]

mod breach;
mod judging;
mod runs;
mod verifying;
mod work;

pub use breach::{Breach, VerifyWhy};
pub use verifying::verify;
