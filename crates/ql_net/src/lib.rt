// The network between replicas: numbered messages with their copies in flight, and the groups into
// which a partition splits the replicas. The one contract: each call does to messages and groups what
// the written machine does, and a message can be delivered exactly if a copy of it is in flight and
// its sender and receiver are in one group.
#![tactic(auto)]

mod flight;
mod net;
mod sent;

pub use flight::Flight;
pub use net::Net;
