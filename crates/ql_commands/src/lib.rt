// The commands on levels, from the bytes of their files to their texts.
// The one contract: each text is one that the meaning of the files allows with its status.
#![tactic(auto)]

mod cert_fault;
mod certificate;
mod classification;
mod judgement;
mod laws;
mod order;
mod refusals;
mod section_lines;
mod source;
mod source_fault;
mod verdicts;

pub use certificate::prove;
pub use classification::classify;
pub use judgement::check;
pub use laws::what_is_proved_is_accepted;
pub use refusals::refusal;
pub use source::read_source;
pub use source_fault::{SourceFault, bad_source};
pub use verdicts::refused;
