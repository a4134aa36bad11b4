// What became of the levels of a source since an answer was stored.
// The one contract: exactly the targets whose least level is higher than the stored one are listed, in order; and a stored
// answer is read to what it says or to its first fault.
#![tactic(auto)]

mod comparison;
mod format;
mod lines;
mod rises;
mod stored;

pub use comparison::compare;
pub use stored::{BaselineRule, Stored};
