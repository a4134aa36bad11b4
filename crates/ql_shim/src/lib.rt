// Open transactions: their objects, snapshots, own effects and what they saw, and what a call in one of
// them sees.
// The one contract: the open transactions are those of the written machine, and a call's view and the
// least effect that it misses are those of the machine's rules for the transaction's level.
#![tactic(auto)]

mod among;
mod lookup;
mod running;
mod scope;
mod shim;
mod unapplied;
mod view;

pub use among::applied_among;
pub use running::Running;
pub use shim::Shim;
pub use view::View;
