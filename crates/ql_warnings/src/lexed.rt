ghost use Rattle.std.specs.Prelude.{◌≡◌, ◌<◌, ◌^◌, IfOk, length};
ghost use Rattle.ql_warnings.specs.Tokens.{AreTokensOf};

use ql_base::NoMemory;
use ql_lex::{LexFault, Token, tokens};
use std::alloc::Global;
use std::marker::Model;

/// A source with its tokens, seen as the source. A source with a fault has no tokens.
pub struct Lexed<'a> {
    source: &'a [u8],
    tokens: Vec<Token>,
}

// Written out, so that a crate above proves one call for it.
impl Drop for Lexed<'_> {
    fn drop(self) {
        let Lexed {
            source: _,
            tokens: _,
        } = self;
    }
}

impl<'a> Model for Lexed<'a> {
    ghost use Rattle.std.specs.Prelude.{◌<◌, ◌^◌, List, length, ℕ};

    ghost Value = { List ℕ };

    ghost use Rattle.ql_warnings.specs.Tokens.{AreTokensOf};

    ghost view = { λ l. l.source.now };

    ghost invariant = { λ l. (length l.source.now < 2 ^ 32) × AreTokensOf l.source.now l.tokens.items };
}

impl<'a> Lexed<'a> {
    /// A source, cut into tokens.
    pub fn of(alloc: Global, source: &'a [u8]) -> Result<Lexed<'a>, NoMemory>
        requires { length source.now < 2 ^ 32 }
        ensures { IfOk result (λ lexed. lexed ≡ source.now) }
    {
        let tokens = tokens_of(alloc, source)?;
        Ok(Lexed { source, tokens })
    }

    pub(crate) fn source(&self) -> &'a [u8]
        ensures same { result.now ≡ self.now }
        ensures few { length self.now < 2 ^ 32 }
    {
        self.source
    }

    pub(crate) fn tokens(&self) -> &[Token]
        ensures { AreTokensOf self.now result.now }
    {
        &self.tokens
    }
}

// The tokens of a source, or none where it has a fault.
fn tokens_of(alloc: Global, source: &[u8]) -> Result<Vec<Token>, NoMemory>
    requires { length source.now < 2 ^ 32 }
    ensures { IfOk result (λ tokens. AreTokensOf source.now tokens.items) }
{
    ql_lex::one_answer();
    match tokens(alloc, source) {
        Ok(tokens) => Ok(tokens),
        Err(LexFault::NoMemory) => Err(NoMemory),
        Err(_) => Ok(Vec::new(alloc)),
    }
}
