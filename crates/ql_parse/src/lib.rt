// Reads contracts and whole sources, and reports the first fault of a text that isn't one.
// Its one contract: the result is the tree that the grammar has for the text, or else its first fault.
#![tactic(auto)]

mod again;
mod contract;
mod declaration;
mod expression;
mod fault;
mod junction;
mod kind;
mod parse;
mod reader;
mod relation;

pub use again::{few_operations, one_answer, one_program_answer};
pub use fault::ParseFault;
pub use parse::{parse_contract, parse_program};
