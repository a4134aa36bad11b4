// What `explain` says of a contract beside its level: facts on the effects of a countermodel, why the contract is false
// there; and warnings, what may be wrong with the contract, or with the execution that is shown for it.
// The one contract: each fact is true of the countermodel's execution; each warning is true, in every execution of the
// program where it is about executions; and where names or tokens decide a warning, it is there whenever it is true.
#![tactic(auto)]

mod always;
mod claims;
mod clash;
mod contract;
mod fact;
mod known;
mod lexed;
mod named;
mod next;
mod others;
mod place;
mod premises;
mod reason;
mod transactions;
mod unbracketed;
mod warning;
mod words;

pub use contract::{formula_of, warnings};
pub use fact::{Claim, Fact};
pub use lexed::Lexed;
pub use others::counter_warnings;
pub use reason::reasons;
pub use warning::{Place, Warning};
pub use words::{warning_text, warning_word};
