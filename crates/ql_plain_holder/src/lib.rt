// A holder in a few lines, to compare others with: it keeps two lists, and computes the closed part anew at
// each receipt.
// The one contract: the laws of a holder.
#![tactic(auto)]

mod closing;
mod plain_holder;

pub use closing::package_of;
pub use plain_holder::PlainHolder;
