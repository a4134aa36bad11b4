ghost use Rattle.std.specs.Prelude.{◌≡◌, ◌<◌, ◌≤◌, ◌||◌, ℕ, length, IfOk, slice_index, slice_index_or, nat_eq, false, replicate, bit_or};
ghost use Rattle.ql_formula.specs.Tables.{row_has};

use ql_base::NoMemory;
use std::alloc::Global;
use std::marker::Model;

/// Which earlier effects are related to one effect, seen as a list with a truth value for each of
/// them in order. It takes a bit for each.
#[derive(Drop)]
pub(crate) struct Row {
    words: Vec<u64>,
    count: usize,
}

impl Model for Row {
    ghost use Rattle.std.specs.Prelude.{List, Bool};
    ghost use Rattle.ql_formula.specs.Bits.{truths, ArePacked};

    ghost Value = { List Bool };

    ghost view = { λ row. truths row.words.items row.count };

    ghost invariant = { λ row. ArePacked row.words.items row.count };
}

impl Row {
    /// The row that has none of `count` effects.
    pub(crate) fn empty(alloc: Global, count: usize) -> Result<Row, NoMemory>
        ensures { IfOk result (λ row. row ≡ replicate count false) }
    {
        Ok(Row {
            words: no_words(alloc, count / 64 + 1)?,
            count,
        })
    }

    /// The number of earlier effects.
    pub(crate) fn len(&self) -> usize
        ensures { result ≡ length self.now }
    {
        self.count
    }

    /// Whether the row has the effect at the index `k`, counted from 0.
    pub(crate) fn get(&self, k: usize) -> bool
        ensures { result ≡ slice_index_or self.now k false }
    {
        match self.words.get(k / 64) {
            Some(word) => *word >> (k % 64) & 1 == 1,
            None => false,
        }
    }

    /// Whether the row has the effect with an id, counted from 1.
    pub(crate) fn has(&self, id: u32) -> bool
        ensures { result ≡ row_has self.now id }
    {
        id > 0 && self.get(id as usize - 1)
    }

    /// Adds the effect at the index `k`, counted from 0.
    pub(crate) fn set(&mut self, k: usize)
        requires { k < length self.old }
        ensures length { length self.new ≡ length self.old }
        ensures added { (j : ℕ)
            → slice_index_or self.new j false ≡ (slice_index_or self.old j false || nat_eq j k) }
    {
        self.words[k / 64] |= 1u64 << (k % 64);
    }

    /// Adds what another row has.
    pub(crate) fn unite(&mut self, other: &Row)
        requires { length other.now ≤ length self.old }
        ensures length { length self.new ≡ length self.old }
        ensures united { (j : ℕ)
            → slice_index_or self.new j false
            ≡ (slice_index_or self.old j false || slice_index_or other.now j false) }
    {
        unite_words(self.words.as_mut_slice(), &other.words);
    }
}

fn no_words(alloc: Global, count: usize) -> Result<Vec<u64>, NoMemory>
    ensures { IfOk result (λ words. words.items ≡ replicate count 0) }
{
    Ok(vec![in alloc; 0; count]?)
}

fn unite_words(words: &mut [u64], others: &[u64])
    requires { length others.now ≤ length words.old }
    ensures length { length words.new ≡ length words.old }
    ensures united { (k : ℕ)
        → slice_index words.new k ≡ bit_or (slice_index words.old k) (slice_index others.now k) }
{
    for k in 0..others.len() {
        words[k] |= others[k];
    }
}
