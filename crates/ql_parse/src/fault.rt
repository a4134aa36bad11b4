use ql_lex::LexFault;
use std::alloc::{AllocError, AllocFailed};

/// Why a text is not read, with the offset of its first fault, in bytes from 0.
#[derive(Clone, Copy)]
pub enum ParseFault {
    /// The text has no tokens.
    Lex(LexFault),
    /// The first token with which no text of the grammar goes on, or the text's end where it ends too early.
    Unexpected(u32),
    /// The bracket that is one too many open at once within one expression or contract.
    Deep(u32),
    /// The token that makes one node too many in one expression or contract.
    Wide(u32),
    /// No memory was left.
    NoMemory,
}

/// Why a reader stops, with the offset.
#[derive(Clone, Copy)]
pub(crate) enum Refusal {
    Unexpected(u32),
    Deep(u32),
    Wide(u32),
    NoMemory,
}

impl From<AllocError> for Refusal {
    ghost use Rattle.std.specs.Prelude.{◌≡◌};
    ghost use Rattle.ql_parse.specs.declared.fault.Refusal.TheVariants.{NoMemory};

    ghost from_gives = { λ _ e. e ≡ NoMemory };

    fn from(_error: AllocError) -> Refusal {
        Refusal::NoMemory
    }
}

impl<T: Drop> From<AllocFailed<T>> for Refusal {
    ghost use Rattle.std.specs.Prelude.{◌≡◌};
    ghost use Rattle.ql_parse.specs.declared.fault.Refusal.TheVariants.{NoMemory};

    ghost from_gives = { λ _ e. e ≡ NoMemory };

    fn from(_error: AllocFailed<T>) -> Refusal {
        Refusal::NoMemory
    }
}

impl From<LexFault> for ParseFault {
    ghost use Rattle.std.specs.Prelude.{◌≡◌};
    ghost use Rattle.ql_parse.specs.Parsing.{of_lex};

    ghost from_gives = { λ fault e. e ≡ of_lex fault };

    fn from(fault: LexFault) -> ParseFault {
        match fault {
            LexFault::NoMemory => ParseFault::NoMemory,
            LexFault::BadChar(_) | LexFault::LongWord(_) | LexFault::BadNumber(_) => {
                ParseFault::Lex(fault)
            }
        }
    }
}

impl From<Refusal> for ParseFault {
    ghost use Rattle.std.specs.Prelude.{◌≡◌};
    ghost use Rattle.ql_parse.specs.Parsing.{of_refusal};

    ghost from_gives = { λ refusal e. e ≡ of_refusal refusal };

    fn from(refusal: Refusal) -> ParseFault {
        match refusal {
            Refusal::Unexpected(at) => ParseFault::Unexpected(at),
            Refusal::Deep(at) => ParseFault::Deep(at),
            Refusal::Wide(at) => ParseFault::Wide(at),
            Refusal::NoMemory => ParseFault::NoMemory,
        }
    }
}
