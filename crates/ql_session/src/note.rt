use ql_base::{EffId, ObjId, SessId};

/// A note that a session made an effect on an object, with its stamp.
#[derive(Clone, Copy)]
pub struct Note {
    pub session: SessId,
    pub object: ObjId,
    pub effect: EffId,
    pub stamp: u32,
}
