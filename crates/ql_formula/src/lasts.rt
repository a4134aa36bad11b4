ghost use Rattle.std.specs.Prelude.{◌≡◌, ◌++◌, ◌∷◌, [], List, length, IfOk, OnOk};
ghost use Rattle.ql_formula.specs.declared.rows.Key.{Key};
ghost use Rattle.ql_formula.specs.Tables.{HasLasts, IsLastBefore, group_of};

use crate::rows::{Closure, Key};
use ql_base::NoMemory;
use std::alloc::Global;
use std::collections::HashMap;

/// The index of the last effect so far in each session, or in each session on each object.
#[derive(Drop)]
pub(crate) struct Lasts {
    closure: Closure,
    indices: HashMap<(u32, Option<u32>), usize>,
}

impl Lasts {
    pub(crate) fn new(alloc: Global, closure: Closure) -> Lasts
        ensures closure { result.closure ≡ closure }
        ensures none { HasLasts result [] }
    {
        Lasts {
            closure,
            indices: HashMap::new(alloc),
        }
    }

    /// Makes the effect of this index, which comes after all so far, the last one of its session.
    /// Returns the one that was.
    pub(crate) fn replace(&mut self, key: Key, index: usize) -> Result<Option<usize>, NoMemory>
        ensures closure { self.new.closure ≡ self.old.closure }
        ensures before { (keys : List Key) → HasLasts self.old keys
            → IfOk result (λ last. IsLastBefore self.old.closure keys key last) }
        ensures after { (keys : List Key) → length keys ≡ index → HasLasts self.old keys
            → OnOk result (HasLasts self.new (keys ++ key ∷ [])) }
    {
        Ok(self.indices.insert(group_of(self.closure, key), index)?)
    }
}

// The session, and the object where sessions are told apart by object.
fn group_of(closure: Closure, key: Key) -> (u32, Option<u32>)
    ensures { result ≡ group_of closure key }
{
    match closure {
        Closure::OnOneObject => (key.session.0, Some(key.object.0)),
        Closure::Across => (key.session.0, None),
    }
}
