ghost use Rattle.std.specs.Prelude.{◌≡◌, ◌≤◌, length};

use ql_base::EffId;
use std::marker::Model;

/// The effects chosen for a formula's variables: at most five ids, seen as their list.
pub struct Places {
    row: [EffId; 5],
    count: u8,
}

// Written out, so that a crate above proves one call for it.
impl Drop for Places {
    fn drop(self) {
        let Places { row: _, count: _ } = self;
    }
}

impl Model for Places {
    ghost use Rattle.std.specs.Prelude.{List, take, ◌≤◌, length, ◌≡◌};
    ghost use Rattle.ql_base.specs.declared.ids.EffId.{EffId};

    ghost Value = { List EffId };

    ghost view = { λ p. take p.count p.row };

    ghost invariant = { λ p. (p.count ≤ 5) × (length p.row ≡ 5) };
}

impl Places {
    /// The choice of these ids, which are at most five.
    pub fn of(ids: &[EffId]) -> Places
        requires { length ids.now ≤ 5 }
        ensures { result ≡ ids.now }
    {
        let mut row = [EffId(0); 5];
        row[..ids.len()].copy_from_slice(ids);
        Places {
            row,
            count: ids.len() as u8,
        }
    }

    /// The ids, in the order of the variables.
    pub fn items(&self) -> &[EffId]
        ensures same { result.now ≡ self.now }
        ensures few { length self.now ≤ 5 }
    {
        &self.row[..self.count as usize]
    }
}
