// Summaries: effects that need not be folded again, kept as the state that their fold yields. The one contract: from
// what is kept, and an execution that has lost the contents of what is kept, each answer is still that of its type's
// fold over all that the call sees.
#![tactic(auto)]

mod advance;
mod answering;
mod covering;
mod kept;
mod slimming;

pub use answering::answer_with;
pub use covering::{covers, is_before};
pub use kept::{Kept, KeptObject};
pub use slimming::slim;
