// A replica's sets: ids that are kept as ranges, and all that effects need, directly or through others.
// The one contract: a set is the ascending list of its ids, and its ranges aren't adjacent, so that each set has one form;
// and what `reach` finds is needed, and what it needs is found or was known.
#![tactic(auto)]

mod neighbours;
mod ranges;
mod walk;

pub use ranges::{IdRange, Ranges};
pub use walk::reach;
