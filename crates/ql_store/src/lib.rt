// A replicated store: replicas, the network between them, sessions and their calls.
// The one contract: each event does to the store what it does to the written machine, and is answered as there.
#![tactic(auto)]

mod asked;
mod attempt;
mod begin;
mod commit;
mod committed;
mod deliver;
mod join;
mod obstacle;
mod own;
mod plain;
mod receive;
mod received;
mod resend;
mod spread;
mod store;
mod strong;
mod view;

pub use store::Store;
