// The files of `holds`: a contract, and an execution with one of its effects as the current one.
// The one contract: reading a file yields the question that its lines spell, or its first fault, which is the first line with
// which no file of the grammar begins that keeps the rules.
#![tactic(auto)]

mod asked;
mod contract_line;
mod contract_rule;
mod effect_line;
mod effects;
mod first_faults;
mod format;
mod grammar;
mod holding;
mod holds_fault;
mod ids;
mod law;
mod parse;
mod reading;
mod rules;

pub use asked::{Asked, ReadContract};
pub use effect_line::EffectLine;
pub use effects::NamedEffects;
pub use first_faults::first_faults_are_of_the_grammar;
pub use grammar::holds_files_are_read;
pub use holding::{Holding, Words};
pub use holds_fault::HoldsFault;
pub use law::one_holding;
pub use parse::parse_holds;
pub use reading::{Current, Stage};
pub use rules::HoldsRule;
