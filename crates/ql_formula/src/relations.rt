ghost use Rattle.std.specs.Prelude.{◌≡◌, List, IfOk};
ghost use Rattle.std.specs.Option.{option_copied};
ghost use Rattle.ql_lang.specs.Trees.{relation_of};
ghost use Rattle.ql_exec.specs.declared.effect.Effect.{Effect};
ghost use Rattle.ql_formula.specs.Tables.{IsTableOf, named_in, related_in, so_in, sameobj_in, key_at, cell};
ghost use Rattle.ql_formula.specs.Truth.{related};

use crate::row::Row;
use crate::rows::{Closure, Key, closure_rows, keys_of, vis_rows};
use ql_base::{EffId, NoMemory};
use ql_exec::Execution;
use ql_lang::{Rel, RelName};
use std::alloc::Global;
use std::marker::Model;

/// The relations of an execution as tables.
///
/// Visibility and each of the two closures take a bit for each effect and each earlier one: 3 MB
/// for 4,000 effects.
pub struct Relations {
    keys: Vec<Key>,
    vis: Vec<Row>,
    hbo: Vec<Row>,
    hb: Vec<Row>,
}

// Written out, so that a crate above proves one call for it.
impl Drop for Relations {
    fn drop(self) {
        let Relations {
            keys: _,
            vis: _,
            hbo: _,
            hb: _,
        } = self;
    }
}

impl Model for Relations {
    ghost use Rattle.ql_formula.specs.Tables.{Table};

    ghost Value = { Table };

    ghost view = { λ r. record {
      keys = r.keys.items;
      seen = r.vis.items;
      before_on_object = r.hbo.items;
      before = r.hb.items;
    } };
}

impl Relations {
    /// The tables of an execution.
    pub fn build(alloc: Global, execution: &Execution) -> Result<Relations, NoMemory>
        ensures { IfOk result (λ relations. IsTableOf relations execution.now) }
    {
        let effects = execution.effects();
        let keys = keys_of(alloc, effects)?;
        Ok(Relations {
            vis: vis_rows(alloc, effects)?,
            hbo: closure_rows(alloc, effects, &keys, Closure::OnOneObject)?,
            hb: closure_rows(alloc, effects, &keys, Closure::Across)?,
            keys,
        })
    }

    /// Whether two effects are related. No effect is related to one that isn't there, except by equality.
    pub fn test(&self, relation: &Rel, a: EffId, b: EffId) -> bool
        ensures tabled { result ≡ related_in self.now (relation_of relation.now) a.0 b.0 }
        ensures real { (x : List Effect) → IsTableOf self.now x
            → result ≡ related x (relation_of relation.now) a.0 b.0 }
    {
        self.tells(relation, a.0, b.0)
    }

    fn tells(&self, relation: &Rel, a: u32, b: u32) -> bool
        ensures { result ≡ related_in self.now (relation_of relation.now) a b }
    {
        match relation {
            Rel::Base(name, _) => self.tells_named(*name, a, b),
            Rel::Union(left, right) => self.tells(left, a, b) || self.tells(right, a, b),
            Rel::Inter(left, right) => self.tells(left, a, b) && self.tells(right, a, b),
        }
    }

    fn tells_named(&self, name: RelName, a: u32, b: u32) -> bool
        ensures { result ≡ named_in self.now name a b }
    {
        match name {
            RelName::Vis => has_cell(&self.vis, a, b),
            RelName::So => in_session_order(&self.keys, a, b),
            RelName::Soo => in_session_order(&self.keys, a, b) && on_one_object(&self.keys, a, b),
            RelName::SameObj => on_one_object(&self.keys, a, b),
            RelName::Eq => a == b,
            RelName::Hb => has_cell(&self.hb, a, b),
            RelName::Hbo => has_cell(&self.hbo, a, b),
        }
    }
}

// Whether the row of b has a.
fn has_cell(rows: &[Row], a: u32, b: u32) -> bool
    ensures { result ≡ cell rows.now a b }
{
    if b == 0 {
        return false;
    }
    match rows.get(b as usize - 1) {
        Some(row) => row.has(a),
        None => false,
    }
}

fn in_session_order(keys: &[Key], a: u32, b: u32) -> bool
    ensures { result ≡ so_in keys.now a b }
{
    match (key(keys, a), key(keys, b)) {
        (Some(first), Some(second)) => first.session.0 == second.session.0 && a < b,
        _ => false,
    }
}

fn on_one_object(keys: &[Key], a: u32, b: u32) -> bool
    ensures { result ≡ sameobj_in keys.now a b }
{
    match (key(keys, a), key(keys, b)) {
        (Some(first), Some(second)) => first.object.0 == second.object.0,
        _ => false,
    }
}

fn key(keys: &[Key], id: u32) -> Option<&Key>
    ensures { option_copied result ≡ key_at keys.now id }
{
    if id == 0 {
        None
    } else {
        keys.get(id as usize - 1)
    }
}
