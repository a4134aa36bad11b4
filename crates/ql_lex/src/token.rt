use std::alloc::{AllocError, AllocFailed};

/// What a token is.
#[derive(Clone, Copy)]
pub enum TokenKind {
    /// A lower-case letter, then lower-case letters, digits and `_`, and no keyword.
    Name,
    /// A number, without sign or leading zero.
    Int,
    /// A text with its two quotes.
    Text,
    /// A mark of one or two bytes.
    Mark,
    /// A reserved word.
    Keyword,
}

/// A token: the bytes of the source from the offset `from` up to the offset `to`, which is excluded.
#[derive(Clone, Copy)]
pub struct Token {
    pub what: TokenKind,
    pub from: u32,
    pub to: u32,
}

/// Why a source can't be cut into tokens, with the byte offset of the first fault, counted from 0.
#[derive(Clone, Copy)]
pub enum LexFault {
    /// A byte that begins no token, or that a text may not contain. A text that doesn't end has
    /// this fault at the source's end.
    BadChar(u32),
    /// A name of more than 32 bytes, reported at its first byte, or a text of more than 64 bytes,
    /// reported at its first quote.
    LongWord(u32),
    /// A number that is too great, has a leading zero, or is followed by a letter or `_`, reported
    /// at its first digit.
    BadNumber(u32),
    /// Out of memory.
    NoMemory,
}

impl From<AllocError> for LexFault {
    ghost use Rattle.std.specs.Prelude.{◌≡◌};
    ghost use Rattle.ql_lex.specs.declared.token.LexFault.TheVariants.{NoMemory};

    ghost from_gives = { λ _ e. e ≡ NoMemory };

    fn from(_error: AllocError) -> LexFault {
        LexFault::NoMemory
    }
}

impl<T: Drop> From<AllocFailed<T>> for LexFault {
    ghost use Rattle.std.specs.Prelude.{◌≡◌};
    ghost use Rattle.ql_lex.specs.declared.token.LexFault.TheVariants.{NoMemory};

    ghost from_gives = { λ _ e. e ≡ NoMemory };

    fn from(_error: AllocFailed<T>) -> LexFault {
        LexFault::NoMemory
    }
}
