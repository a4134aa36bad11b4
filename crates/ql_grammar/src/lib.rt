// The grammar of the source language, as relations between tokens and trees.
// It has the terminals of the grammar, and no reader: its definitions say what a reader must return.
// The one contract: the tokens of a text have one tree within the limits, or one first fault, and not both.
#![tactic(auto)]

mod precedence;
mod role;
mod terminal;
mod unique;

pub use precedence::Precedence;
pub use role::Role;
pub use terminal::{Terminal, is_same, terminal_of};
pub use unique::{one_answer, one_program_answer};
