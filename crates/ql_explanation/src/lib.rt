// Why each target of a source has its level, or none: text for people, from the source's bytes.
// The one contract: each level is the target's least one, and each execution is a countermodel of the target at the next
// lower level, or at the highest where none is enough; each strong operation that a transaction uses is listed; the text is
// stated, except for the words about a countermodel; and the answer is yes exactly where each target has a level and no
// transaction uses such an operation.
#![tactic(auto)]

mod answer;
mod explanation;
mod finding;
mod sections;
mod sentences;
mod table;
mod uses;
mod words;

pub use answer::answer_of;
pub use explanation::explain;
pub use finding::{finding_at, findings};
pub use sections::{goal_of, unmet_of};
pub use uses::uses_of;
