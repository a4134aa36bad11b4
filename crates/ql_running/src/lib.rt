// The command that runs a schedule through a store of a source's program, from the bytes of both files to its text; how each
// command on a source and a schedule reads them; and what levels and the store say together.
// The one contract: the text is the run's, and the execution that it shows meets every contract of the source, since at
// levels that guarantee the contracts every effect of every run meets its own, and every begun transaction too.
#![tactic(auto)]

mod form;
mod headline;
mod input;
mod law;
mod running;
mod schedule_fault;
mod store_run;

pub use form::Form;
pub use headline::runs_meet_contracts;
pub use input::{RunInput, read_run_input};
pub use law::runs_are_sound;
pub use running::run;
pub use store_run::sound_run;
