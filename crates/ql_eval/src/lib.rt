// Evaluation: the values of expressions, the statements of operations, and folds of effects.
// Its one contract: a value is that of a recursion on the expression, an answer that of a fold over the seen effects
// in order of stamp and session; and what is well typed is never stuck.
#![tactic(auto)]

mod call;
mod emitted;
mod env;
mod evaluation;
mod folder;
mod folding;
mod operator;
mod order;
mod resuming;
mod running;
mod scalar;
mod scope;
mod statement;

pub use env::Env;
pub use evaluation::{eval, try_eval};
pub use folder::{TypedFolder, try_answer};
pub use folding::{apply, fold};
pub use resuming::{answer_after, first_state, fold_after};
