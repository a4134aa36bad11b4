// A replicated store as a definition, its state, the events that may happen to it and how each is answered, and what always
// holds in its runs, whatever the schedule.
// The one contract: each rule is stated once, in specs/; and in every state of every run the effects are an execution in
// which the level of each operation and of each begun transaction is guaranteed.
#![tactic(auto)]

mod agreement;
mod determined;
mod effects;
mod event;
mod example;
mod groups;
mod kept;
mod levels;
mod message;
mod open_txn;
mod packages;
mod reply;

pub use agreement::replicas_agree;
pub use determined::steps_are_determined;
pub use effects::calls_make_effects;
pub use event::Event;
pub use example::example_runs;
pub use groups::Groups;
pub use kept::steps_keep_all;
pub use levels::{
    effects_meet_their_levels, strong_effects_are_everywhere, strong_effects_are_ordered,
    transactions_meet_their_levels,
};
pub use message::Message;
pub use open_txn::OpenTxn;
pub use packages::{packages_are_whole, replicas_judge_alone, strong_calls_give_all};
pub use reply::{Reply, Why};
