// Clause lists in conjunctive normal form, and when an assignment satisfies one. The one contract:
// `add` appends exactly the ascending clause of its literals, and appends nothing where they hold both
// signs of a variable.
#![tactic(auto)]

mod assignment;
mod clause;
mod clauses;
mod ground;
mod lit;
mod tseitin;

pub use assignment::{Assignment, satisfies};
pub use clause::Clause;
pub use clauses::Clauses;
pub use ground::Ground;
pub use lit::{Lit, are_in_range};
pub use tseitin::clausify;
