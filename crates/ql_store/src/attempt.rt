use ql_exec::Draft;
use ql_machine::Reply;

/// The result of trying a call.
#[derive(Drop)]
pub(crate) enum Attempt {
    /// It is answered, and changes nothing.
    Ends(Reply),
    /// It makes this effect.
    Makes(Draft),
}
