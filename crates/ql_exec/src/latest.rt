ghost use Rattle.std.specs.Prelude.{◌≡◌, ◌++◌, ◌∷◌, [], true, IfOk, OnOk};
ghost use Rattle.ql_base.specs.declared.ids.SessId.{SessId};
ghost use Rattle.ql_exec.specs.Latest.{latest_of, has_entry, with_latest};

use ql_base::{NoMemory, SessId};
use std::alloc::Global;
use std::marker::Model;

/// The last effect of a session, by its id. The id is 0 if the session has no effect.
#[derive(Clone, Copy)]
pub(crate) struct Entry {
    session: SessId,
    last: u32,
}

/// The last effect of each session, seen as the list of the entries.
pub(crate) struct Latest {
    entries: Vec<Entry>,
}

// Written out, so that a crate above proves one call for it.
impl Drop for Latest {
    fn drop(self) {
        let Latest { entries: _ } = self;
    }
}

impl Model for Latest {
    ghost use Rattle.std.specs.Prelude.{List};
    ghost use Rattle.ql_exec.specs.declared.latest.Entry.{Entry};

    ghost Value = { List Entry };

    ghost view = { λ table. table.entries.items };
}

impl Latest {
    pub(crate) fn new(alloc: Global) -> Latest
        ensures { result ≡ [] }
    {
        Latest {
            entries: Vec::new(alloc),
        }
    }

    /// The id of the session's last effect, 0 for none.
    pub(crate) fn of(&self, session: SessId) -> u32
        ensures { result ≡ latest_of self.now session }
    {
        for entry in &self.entries {
            if entry.session.0 == session.0 {
                return entry.last;
            }
        }
        0
    }

    /// Makes room for the session, whose last effect is `last`. The last effect of each session stays
    /// the same.
    pub(crate) fn include(&mut self, session: SessId, last: u32) -> Result<(), NoMemory>
        requires { last ≡ latest_of self.old session }
        ensures same { (other : SessId) → latest_of self.new other ≡ latest_of self.old other }
        ensures there { OnOk result (has_entry self.new session ≡ true) }
    {
        if last != 0 || self.has(session) {
            return Ok(());
        }
        self.entries.push(Entry { session, last: 0 })?;
        Ok(())
    }

    fn has(&self, session: SessId) -> bool
        ensures { result ≡ has_entry self.now session }
    {
        self.entries
            .iter()
            .any(|entry| entry.session.0 == session.0)
    }

    /// An equal table.
    pub(crate) fn copy(&self) -> Result<Latest, NoMemory>
        ensures { IfOk result (λ copied. copied ≡ self.now) }
    {
        let entries = Vec::from_slice(*self.entries.allocator(), &self.entries)?;
        Ok(Latest { entries })
    }

    /// Sets the last effect of a session that there is room for.
    pub(crate) fn put(&mut self, session: SessId, id: u32)
        ensures { self.new ≡ with_latest self.old session id }
    {
        put_in(self.entries.as_mut_slice(), session, id);
    }
}

fn put_in(entries: &mut [Entry], session: SessId, id: u32)
    ensures { entries.new ≡ with_latest entries.old session id }
{
    if let Some((entry, others)) = entries.split_first_mut() {
        if entry.session.0 == session.0 {
            entry.last = id;
        } else {
            put_in(others, session, id);
        }
    }
}
