use ql_base::IdSet;

/// A package that was received and isn't applied.
#[derive(Drop)]
pub(crate) struct Waiting {
    pub(crate) pack: IdSet,
    /// An id that the package needs, directly or through other effects, and that hasn't been received.
    pub(crate) watched: u32,
}
