// The store's levels: four for operations and three for transactions, each in ascending order.
// The one contract: the formula of a level is the written one, and each level is found by its name alone.
#![tactic(auto)]

mod formulas;
mod level;
mod levels;
mod words;

pub use formulas::{formula, txn_formula};
pub use level::{Level, TxnLevel};
pub use levels::Levels;
pub use words::{level_of, level_word, txn_of, txn_word};
