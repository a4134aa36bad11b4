// What the effects of an execution need, which effects of a set have all that they need in it, and what a replica holds:
// the effects that it received, and those of them that are applied, which are the closed part.
// The one contract: the laws of `Holder`; the closed part of a set is the greatest subset that has all that it needs, and
// it stays the same in a longer execution that adds no effect to a transaction of the set.
#![tactic(auto)]

mod arrival;
mod holder;
mod laws;
mod transactions;

pub use arrival::Arrival;
pub use holder::Holder;
pub use laws::{closed_part_stays, closed_parts, lists_as_sets, packages_are_whole};
pub use transactions::is_same_txn;
