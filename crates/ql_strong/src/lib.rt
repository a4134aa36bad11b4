// The synchronous step of a strong call: each replica receives all that is committed. And a replica that
// begins with only the strong effects and what they need.
// The one contract: there are as many new holders as old ones, and each fits the execution and has
// received exactly the committed effects; the old ones stay as they are. A bare holder has received
// exactly the effects asked for and all that these need.
#![tactic(auto)]

mod law;
mod needed;
mod package;
mod synced;

pub use law::received_at_once;
pub use needed::bare;
pub use package::package_of;
pub use synced::sync;
