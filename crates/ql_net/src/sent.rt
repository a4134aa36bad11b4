use ql_base::{IdSet, ReplicaId};
use std::rc::Rc;

/// A message. It shares what it carries with those that were sent together with it.
pub(crate) struct Sent {
    pub(crate) sender: ReplicaId,
    pub(crate) receiver: ReplicaId,
    pub(crate) carried: Rc<IdSet>,
    pub(crate) copies: u32,
}

// Written out, so that a crate above proves one call for it.
impl Drop for Sent {
    fn drop(self) {
        let Sent {
            sender: _,
            receiver: _,
            carried: _,
            copies: _,
        } = self;
    }
}
