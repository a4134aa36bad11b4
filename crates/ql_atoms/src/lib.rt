// The ground atoms of a problem and their numbers: pairs of constants under a relation, constants
// of the current transaction, and constants that are effects of an operation.
// The one contract: `number` and `atom_of` are inverses, between atoms and the numbers from 1 to their count.
#![tactic(auto)]

mod atoms;
mod numbering;
mod shapes;

pub use atoms::{Atom, PairKind};
pub use numbering::{atom_of, number};
pub use shapes::Shape;
