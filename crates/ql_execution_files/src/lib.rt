// Execution files and their grammar.
// The one contract: reading a file returns the execution of the effects that its lines spell, or its first fault, which is
// the first line with which no file of the program begins; no file has both, and none has neither.
#![tactic(auto)]

mod first_faults;
mod format;
mod grammar;
mod law;
mod parse;
mod report_fault;

pub use first_faults::first_execution_faults_are_of_the_grammar;
pub use format::ExecutionReading;
pub use grammar::execution_files_are_read;
pub use law::one_execution;
pub use parse::parse_execution;
pub use report_fault::ReportFault;
