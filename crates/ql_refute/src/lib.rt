// Refutations of clause lists, and a checker for them. The one contract: if `check` accepts a
// refutation, no assignment satisfies the clauses, whoever made the refutation.
#![tactic(auto)]

mod checker;
pub mod marks;
mod refutation;
mod verdict;

pub use checker::{check, hinted};
pub use refutation::{Hint, Hints, Line, Lines, Refutation};
pub use verdict::Verdict;
