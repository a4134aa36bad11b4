ghost use Rattle.std.specs.Prelude.{◌≡◌, ◌≤◌, length};

use std::marker::Model;

/// A name of 1 to 32 bytes, seen as the list of its bytes.
///
/// It is stored inline, so making, copying and comparing one allocates nothing.
#[derive(Clone, Copy, PartialEq, Eq, Hash)]
pub struct Word {
    row: [u8; 32],
    len: u8,
}

impl Model for Word {
    ghost use Rattle.std.specs.Prelude.{List, ℕ, length, take};
    ghost use Rattle.ql_base.specs.Words.{IsRow, padded};
    ghost use Rattle.ql_base.specs.Rows.{row-again};

    ghost Value = { List ℕ };

    ghost view = { λ w. take w.len w.row };

    ghost invariant = { λ w. IsRow w.len w.row };

    ghost inverse = { λ bytes. record { row = padded bytes; len = length bytes } };

    ghost inverse_ok = { λ w fits. row-again w fits };
}

impl Word {
    /// The word with the bytes `b`, of which there are 1 to 32.
    pub fn of(b: &[u8]) -> Word
        requires some { 1 ≤ length b.now }
        requires few { length b.now ≤ 32 }
        ensures { result ≡ b.now }
    {
        let mut row = [0; 32];
        row[..b.len()].copy_from_slice(b);
        Word {
            row,
            len: b.len() as u8,
        }
    }

    /// The word's bytes.
    pub fn bytes(&self) -> &[u8]
        ensures same { result.now ≡ self.now }
        ensures some { 1 ≤ length self.now }
        ensures few { length self.now ≤ 32 }
    {
        &self.row[..self.len as usize]
    }
}
