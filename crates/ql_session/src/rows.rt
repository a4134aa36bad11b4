ghost use Rattle.std.specs.Prelude.{◌≡◌, ◌<◌, ℕ, [], length, OnOk, OnErr};
ghost use Rattle.ql_session.specs.Rows.{row_at, lists_of, IsPushed, IsPopped, AreSame};

use ql_base::NoMemory;
use std::alloc::Global;
use std::marker::Model;

/// Lists of numbers by an index from 0, viewed as a list of lists. Those after the last are empty.
///
/// They take memory in proportion to the greatest index and to their lengths.
#[derive(Drop)]
pub(crate) struct Rows {
    rows: Vec<Vec<u32>>,
}

impl Model for Rows {
    ghost use Rattle.std.specs.Prelude.{List, ℕ};
    ghost use Rattle.ql_session.specs.Rows.{lists_of};

    ghost Value = { List (List ℕ) };

    ghost view = { λ table. lists_of table.rows.items };
}

impl Rows {
    pub(crate) fn new(alloc: Global) -> Rows
        ensures { result ≡ [] }
    {
        Rows {
            rows: Vec::new(alloc),
        }
    }

    /// The list at an index.
    pub(crate) fn row(&self, k: u32) -> &[u32]
        ensures { result.now ≡ row_at self.now k }
    {
        match self.rows.get(k as usize) {
            None => &[],
            Some(row) => row,
        }
    }

    /// Appends a number to the list at an index.
    pub(crate) fn push(&mut self, k: u32, n: u32) -> Result<(), NoMemory>
        ensures ok { OnOk result (IsPushed self.old self.new k n) }
        ensures err { OnErr result (AreSame self.old self.new) }
    {
        grow(&mut self.rows, k as usize)?;
        let row = &mut self.rows[k as usize];
        row.push(n)?;
        Ok(())
    }

    /// Removes the last number of the list at an index, if any.
    pub(crate) fn pop(&mut self, k: u32)
        ensures { IsPopped self.old self.new k }
    {
        if (k as usize) < self.rows.len() {
            let row = &mut self.rows[k as usize];
            row.pop();
        }
    }
}

// Appends empty lists until there is one at this index.
fn grow(rows: &mut Vec<Vec<u32>>, k: usize) -> Result<(), NoMemory>
    ensures there { OnOk result (k < length rows.new.items) }
    ensures same { AreSame (lists_of rows.old.items) (lists_of rows.new.items) }
{
    let alloc = *rows.allocator();
    'growing: while rows.len() <= k {
        rows.push(Vec::new(alloc))?;
    }
    Ok(())
}
