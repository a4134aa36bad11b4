// The result of one turn of the search.
#[derive(Clone, Copy)]
pub(crate) enum Turn {
    More,
    // The marks are a model.
    Model,
    // The line of this number is empty.
    Refuted(u64),
}
