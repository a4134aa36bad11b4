// The lines of effects in files of executions.
// The one contract: reading a line returns the effect that it says, if it says one, and that effect is appended to the
// effects before it, or breaks a rule; of several rules the lowest is reported.
#![tactic(auto)]

mod effect_line;
mod effects_read;
mod part;
mod rules;
mod setting;

pub use effect_line::{EffectLine, read_line};
pub use effects_read::EffectsRead;
pub use rules::ReportRule;
pub use setting::{Begun, Setting};
