ghost use Rattle.std.specs.Prelude.{◌≡◌};
ghost use Rattle.ql_value.specs.Texts.{IsText};

use std::marker::Model;

/// A text: at most 64 bytes, each of which is allowed between quotes. Seen as the list of its bytes.
pub struct TextVal {
    bytes: Vec<u8>,
}

// Written out, so that a crate above proves one call for it.
impl Drop for TextVal {
    fn drop(self) {
        let TextVal { bytes: _ } = self;
    }
}

impl Model for TextVal {
    ghost use Rattle.std.specs.Prelude.{List, ℕ};
    ghost use Rattle.ql_value.specs.Texts.{IsText};

    ghost Value = { List ℕ };

    ghost view = { λ t. t.bytes.items };

    ghost invariant = { λ t. IsText t.bytes.items };
}

impl TextVal {
    /// The text of these bytes.
    pub fn of(bytes: Vec<u8>) -> TextVal
        requires { IsText bytes.items }
        ensures { result ≡ bytes.items }
    {
        TextVal { bytes }
    }

    /// The text's bytes.
    pub fn items(&self) -> &[u8]
        ensures same { result.now ≡ self.now }
        ensures text { IsText self.now }
    {
        &self.bytes
    }

    /// The text's bytes.
    pub fn into_items(self) -> Vec<u8>
        ensures same { result.items ≡ self }
        ensures text { IsText self }
    {
        let TextVal { bytes } = self;
        bytes
    }
}

/// What may be an argument, an element of a set, or a key or value of a map.
#[derive(Drop)]
pub enum Scalar {
    Int(i64),
    Bool(bool),
    Text(TextVal),
}
