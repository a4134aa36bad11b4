use ql_base::{EffId, IdSet};

/// The result of receiving a package.
#[derive(Drop)]
pub enum Arrival {
    /// It had been received before.
    Again,
    /// It was received and isn't applied. The id is the least that it needs, directly or through
    /// other effects, and that hasn't been received.
    Waits(EffId),
    /// It was received and is applied. These effects are applied now and weren't before.
    Applies(IdSet),
}
