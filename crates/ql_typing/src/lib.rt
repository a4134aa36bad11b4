// Typing: which faults a program has, and programs that have none.
// The faults of a program are a list, by cases on its declarations and expressions.
// The one contract: a program is typed exactly if that list is empty, and otherwise its first fault is reported.
#![tactic(auto)]

mod build;
mod contract;
mod fault;
mod formulas;
mod function;
mod judge;
mod kind;
mod limits;
mod lookup;
mod named;
mod names;
mod operation;
mod program;
mod scope;
mod typed;
mod word_set;

pub use build::resolve;
pub use fault::TypeFault;
pub use function::{Function, Signature, find_function, kind_of_base};
pub use kind::{is_basic, operator_gives};
pub use scope::{Known, Scope, Table};
pub use typed::{Typed, typecheck};
pub use word_set::WordSet;
