// What every other crate shares: limits, names and their numbers, sets of ids, decimal numbers, and
// the out-of-memory error. The one contract: a set of ids is its ascending list, names are the list
// of their first occurrences, and a number is written and read in decimal.
#![tactic(auto)]

mod bytes;
mod id_set;
mod ids;
mod limits;
mod name;
mod no_memory;
mod number;
mod numbering;
mod push;
mod word;

pub use bytes::{
    are_text_bytes, is_blank, is_digit, is_lower, is_name_byte, is_text_byte, is_word_byte,
};
pub use id_set::IdSet;
pub use ids::{DeclId, EffId, MsgId, ObjId, OpId, ReplicaId, RunId, SessId, TypeId};
pub use limits::{
    MAX_ATOMS, MAX_BODY_VARIABLES, MAX_BRACKETS, MAX_CERTIFICATE_BYTES, MAX_DECLARED_OBJECTS,
    MAX_EFFECTS, MAX_EMITTED, MAX_ENTRIES, MAX_EVENTS, MAX_EXECUTION_BYTES, MAX_FIELDS,
    MAX_HOLDS_BYTES, MAX_NAME_BYTES, MAX_NODES, MAX_OBJECTS, MAX_OPERATIONS, MAX_PARAMETERS,
    MAX_PROOF_BYTES, MAX_REPLICAS, MAX_SCHEDULE_BYTES, MAX_SESSIONS, MAX_SOURCE_BYTES,
    MAX_STATEMENTS, MAX_TEXT_BYTES, MAX_TRANSACTIONS, MAX_TYPES, MAX_VARIABLES, MAX_WORK,
    limits_in_figures,
};
pub use name::{is_keyword, is_name, name_bytes};
pub use no_memory::NoMemory;
pub use number::{digit_bytes, number_of};
pub use numbering::Names;
pub use push::{push_all, push_bytes, push_number};
pub use word::Word;
