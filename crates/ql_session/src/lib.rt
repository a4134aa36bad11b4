// What each session did, in lists by session and object, so that a causal call finds what it misses, and
// a call that has to see its whole causal past finds what it misses of that.
// The one contract: the notes are a list, and each call depends on that list only; the notes of an
// execution have exactly the effects that a session made on an object.
#![tactic(auto)]

mod index;
mod law;
mod missing;
mod note;
mod past;
mod rows;
mod sessions;

pub use law::notes_of_executions;
pub use note::Note;
pub use sessions::Sessions;
