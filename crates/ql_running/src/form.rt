/// How a run is written.
#[derive(Clone, Copy)]
pub enum Form {
    /// Lines: the levels, the replies, and the execution.
    Text,
    /// One JSON object.
    Json,
}
