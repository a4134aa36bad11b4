ghost use Rattle.std.specs.Prelude.{◌≡◌, ◌∷◌, ◌++◌, [], List, OnOk, OnErr};
ghost use Rattle.ql_base.specs.declared.ids.ObjId.{ObjId};
ghost use Rattle.ql_base.specs.declared.ids.SessId.{SessId};
ghost use Rattle.ql_session.specs.declared.note.Note.{Note};
ghost use Rattle.ql_session.specs.Index.{AreIndexed, IsPairPushed, IsPairPopped, ArePairsSame, pair_of};

use crate::note::Note;
use crate::rows::Rows;
use indexmap::IndexMap;
use ql_base::{NoMemory, ObjId, SessId};
use std::alloc::Global;

/// The lists that are kept for some notes: by session and object, by object, and by session.
pub(crate) struct Index {
    // The effects by session and object.
    pub(crate) pairs: IndexMap<(u32, u32), Vec<u32>>,
    // The effects by object.
    pub(crate) objects: Rows,
    // The stamps by session.
    pub(crate) stamps: Rows,
}

// Written out, so that a crate above proves one call for it.
impl Drop for Index {
    fn drop(self) {
        let Index {
            pairs: _,
            objects: _,
            stamps: _,
        } = self;
    }
}

impl Index {
    pub(crate) fn new(alloc: Global) -> Index
        ensures { AreIndexed [] result.pairs result.objects result.stamps }
    {
        Index {
            pairs: IndexMap::new(alloc),
            objects: Rows::new(alloc),
            stamps: Rows::new(alloc),
        }
    }

    /// The effects of a session on an object.
    pub(crate) fn pair(&self, s: SessId, o: ObjId) -> &[u32]
        ensures { result.now ≡ pair_of self.now.pairs s o }
    {
        match self.pairs.get(&(s.0, o.0)) {
            None => &[],
            Some(row) => row,
        }
    }

    /// Adds a note.
    pub(crate) fn add(&mut self, note: Note) -> Result<(), NoMemory>
        ensures ok { OnOk result
            ((notes : List Note) → AreIndexed notes self.old.pairs self.old.objects self.old.stamps
            → AreIndexed (notes ++ note ∷ []) self.new.pairs self.new.objects self.new.stamps) }
        ensures err { OnErr result
            ((notes : List Note) → AreIndexed notes self.old.pairs self.old.objects self.old.stamps
            → AreIndexed notes self.new.pairs self.new.objects self.new.stamps) }
    {
        push_pair(&mut self.pairs, note)?;
        match self.objects.push(note.object.0, note.effect.0) {
            Err(NoMemory) => {
                pop_pair(&mut self.pairs, note);
                Err(NoMemory)
            }
            Ok(()) => match self.stamps.push(note.session.0, note.stamp) {
                Err(NoMemory) => {
                    pop_pair(&mut self.pairs, note);
                    self.objects.pop(note.object.0);
                    Err(NoMemory)
                }
                Ok(()) => Ok(()),
            },
        }
    }

    /// Removes the note that was added last.
    pub(crate) fn remove(&mut self, note: Note)
        ensures { (notes : List Note)
            → AreIndexed (notes ++ note ∷ []) self.old.pairs self.old.objects self.old.stamps
            → AreIndexed notes self.new.pairs self.new.objects self.new.stamps }
    {
        pop_pair(&mut self.pairs, note);
        self.objects.pop(note.object.0);
        self.stamps.pop(note.session.0);
    }
}

fn push_pair(pairs: &mut IndexMap<(u32, u32), Vec<u32>>, note: Note) -> Result<(), NoMemory>
    ensures ok { OnOk result (IsPairPushed pairs.old pairs.new note) }
    ensures err { OnErr result (ArePairsSame pairs.old pairs.new) }
{
    let pair = (note.session.0, note.object.0);
    if let Some(row) = pairs.get_mut(&pair) {
        row.push(note.effect.0)?;
        return Ok(());
    }
    let mut row = Vec::new(*pairs.allocator());
    row.push(note.effect.0)?;
    pairs.insert(pair, row)?;
    Ok(())
}

fn pop_pair(pairs: &mut IndexMap<(u32, u32), Vec<u32>>, note: Note)
    ensures { IsPairPopped pairs.old pairs.new note }
{
    if let Some(row) = pairs.get_mut(&(note.session.0, note.object.0)) {
        row.pop();
    }
}
