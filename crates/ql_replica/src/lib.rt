// A replica: what it received and what is applied, as ranges of ids, and the packages that wait, each
// with an id that it watches.
// The one contract: the laws of a holder. A waiting package watches an id that it needs and that hasn't been
// received, so it isn't closed, and no receipt has to look at it before that id arrives.
#![tactic(auto)]

mod receiving;
mod replica;
mod settling;
mod waiting;
mod walking;

pub use replica::Replica;
