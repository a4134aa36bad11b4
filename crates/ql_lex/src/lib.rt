// Cuts a source text into tokens.
// Its one contract: `tokens` returns the tokens of the text, each as long as possible, or the first
// offset that fits no token.
#![tactic(auto)]

mod marks;
mod scan;
mod start;
mod token;
mod unique;

pub use scan::tokens;
pub use token::{LexFault, Token, TokenKind};
pub use unique::one_answer;
