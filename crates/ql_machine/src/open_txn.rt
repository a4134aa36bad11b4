use ql_base::{DeclId, IdSet, RunId, SessId};

/// A transaction that a session has begun and not committed yet.
pub struct OpenTxn {
    pub session: SessId,
    pub run: RunId,
    pub decl: DeclId,
    /// The objects on which it may call operations.
    pub objects: IdSet,
    /// What its replica had applied when it began.
    pub snapshot: IdSet,
}

// Written out, so that a crate above proves one call for it.
impl Drop for OpenTxn {
    fn drop(self) {
        let OpenTxn {
            session: _,
            run: _,
            decl: _,
            objects: _,
            snapshot: _,
        } = self;
    }
}
