ghost use Rattle.std.specs.Prelude.{◌≡◌, ◌<◌, ◌≤ℤ◌, IfErr, IfOk, OnOk, length, neg_ℤ, pos};
ghost use Rattle.ql_grammar.specs.Table.{ABase, AKind, APart, AnInit, AnyKind, BaseKind, Beginning, plain_ways};
ghost use Rattle.ql_parse.specs.Readings.{
  AreRefused,
  Gave,
  GaveAll,
  GaveOneOf,
  IsOneOfRefused,
  IsRefused,
  base_ahead,
  based_symbols,
  beginning_ahead,
  kind_ahead,
  map_symbols,
  negative_symbols,
  number_symbols,
  set_symbols,
  text_symbols,
};

use crate::fault::Refusal;
use crate::reader::Reader;
use ql_grammar::{Role, Terminal};
use ql_lang::{Base, Init, InitNode, Kind};
use std::alloc::Global;

// The number below zero that lies as far from it.
fn opposite(value: i64) -> i64
    requires { pos 0 ≤ℤ value }
    ensures { result ≡ neg_ℤ value }
{
    -value
}

impl Reader<'_> {
    /// The kind of a single value that comes next, with its word; where none does, the last of them.
    fn base_word(&self) -> (Terminal, Base)
        ensures { result ≡ base_ahead self.now.tokens }
    {
        if self.sees(Terminal::IntWord) {
            (Terminal::IntWord, Base::Int)
        } else if self.sees(Terminal::BoolWord) {
            (Terminal::BoolWord, Base::Bool)
        } else {
            (Terminal::TextWord, Base::Text)
        }
    }

    /// The kind of a single value.
    pub(crate) fn base(&mut self) -> Result<Base, Refusal>
        ensures gave { IfOk result (λ b. Gave (APart BaseKind) (ABase b) self.old self.new) }
        ensures shorter { OnOk result (length self.new.tokens < length self.old.tokens) }
        ensures refused { IfErr result (IsRefused (APart BaseKind) self.old) }
    {
        let (word, base) = self.base_word();
        self.past(base, word, Role::Plain)
    }

    /// The kind of a single value after a mark.
    pub(crate) fn base_behind(&mut self, mark: Terminal) -> Result<Base, Refusal>
        ensures gave { IfOk result (λ b. GaveAll (based_symbols mark) (ABase b) self.old self.new) }
        ensures shorter { OnOk result (length self.new.tokens < length self.old.tokens) }
        ensures refused { IfErr result (AreRefused (based_symbols mark) self.old) }
    {
        self.take(mark, Role::Plain)?;
        self.base()
    }

    /// The elements' kind after the word `set`.
    fn set_kind(&mut self) -> Result<Kind, Refusal>
        ensures gave { IfOk result (λ k. GaveAll set_symbols (AKind k) self.old self.new) }
        ensures shorter { OnOk result (length self.new.tokens < length self.old.tokens) }
        ensures refused { IfErr result (AreRefused set_symbols self.old) }
    {
        self.take(Terminal::SetWord, Role::Plain)?;
        let element = self.base_behind(Terminal::OpenParen)?;
        self.past(Kind::Set(element), Terminal::CloseParen, Role::Plain)
    }

    /// The keys' and values' kinds after the word `map`.
    fn map_kind(&mut self) -> Result<Kind, Refusal>
        ensures gave { IfOk result (λ k. GaveAll map_symbols (AKind k) self.old self.new) }
        ensures shorter { OnOk result (length self.new.tokens < length self.old.tokens) }
        ensures refused { IfErr result (AreRefused map_symbols self.old) }
    {
        self.take(Terminal::MapWord, Role::Plain)?;
        let key = self.base_behind(Terminal::OpenParen)?;
        let value = self.base_behind(Terminal::Comma)?;
        self.past(Kind::Map(key, value), Terminal::CloseParen, Role::Plain)
    }

    /// The kind of one word that comes next, with this word; where none does, the last of them.
    fn kind_word(&self) -> (Terminal, Kind)
        ensures { result ≡ kind_ahead self.now.tokens }
    {
        if self.sees(Terminal::UnitWord) {
            (Terminal::UnitWord, Kind::Unit)
        } else if self.sees(Terminal::IntWord) {
            (Terminal::IntWord, Kind::Int)
        } else if self.sees(Terminal::BoolWord) {
            (Terminal::BoolWord, Kind::Bool)
        } else {
            (Terminal::TextWord, Kind::Text)
        }
    }

    /// A kind.
    pub(crate) fn kind(&mut self) -> Result<Kind, Refusal>
        ensures gave { IfOk result (λ k. Gave (APart AnyKind) (AKind k) self.old self.new) }
        ensures shorter { OnOk result (length self.new.tokens < length self.old.tokens) }
        ensures refused { IfErr result (IsRefused (APart AnyKind) self.old) }
    {
        if self.sees(Terminal::SetWord) {
            return self.set_kind();
        }
        if self.sees(Terminal::MapWord) {
            return self.map_kind();
        }
        let (word, kind) = self.kind_word();
        self.past(kind, word, Role::Plain)
    }

    /// The beginning of one word that comes next, with this word; where none does, the last of them.
    fn beginning_word(&self) -> (Terminal, InitNode)
        ensures { result ≡ beginning_ahead self.now.tokens }
    {
        if self.sees(Terminal::TrueWord) {
            (Terminal::TrueWord, InitNode::Bool(true))
        } else if self.sees(Terminal::FalseWord) {
            (Terminal::FalseWord, InitNode::Bool(false))
        } else if self.sees(Terminal::UnitWord) {
            (Terminal::UnitWord, InitNode::Unit)
        } else {
            (Terminal::EmptyWord, InitNode::Empty)
        }
    }

    /// A beginning that is one word.
    fn plain_beginning(&mut self) -> Result<Init, Refusal>
        ensures gave { IfOk result (λ i. GaveOneOf plain_ways (AnInit i) self.old self.new) }
        ensures shorter { OnOk result (length self.new.tokens < length self.old.tokens) }
        ensures refused { IfErr result (IsOneOfRefused plain_ways self.old) }
    {
        let (word, node) = self.beginning_word();
        let at = self.take(word, Role::Plain)?;
        Ok(Init { at, node })
    }

    /// A number after a `-`.
    fn negative(&mut self) -> Result<Init, Refusal>
        ensures gave { IfOk result (λ i. GaveAll negative_symbols (AnInit i) self.old self.new) }
        ensures shorter { OnOk result (length self.new.tokens < length self.old.tokens) }
        ensures refused { IfErr result (AreRefused negative_symbols self.old) }
    {
        let at = self.take(Terminal::Minus, Role::Plain)?;
        let value = self.number(Role::Plain)?;
        let negated = opposite(value);
        Ok(Init {
            at,
            node: InitNode::Int(negated),
        })
    }

    /// A number.
    fn plain_number(&mut self) -> Result<Init, Refusal>
        ensures gave { IfOk result (λ i. GaveAll number_symbols (AnInit i) self.old self.new) }
        ensures shorter { OnOk result (length self.new.tokens < length self.old.tokens) }
        ensures refused { IfErr result (AreRefused number_symbols self.old) }
    {
        let at = self.place();
        let value = self.number(Role::Plain)?;
        Ok(Init {
            at,
            node: InitNode::Int(value),
        })
    }

    /// A text.
    fn plain_text(&mut self, alloc: Global) -> Result<Init, Refusal>
        ensures gave { IfOk result (λ i. GaveAll text_symbols (AnInit i) self.old self.new) }
        ensures shorter { OnOk result (length self.new.tokens < length self.old.tokens) }
        ensures refused { IfErr result (AreRefused text_symbols self.old) }
    {
        let at = self.place();
        let text = self.text(alloc, Role::Plain)?;
        Ok(Init {
            at,
            node: InitNode::Text(text),
        })
    }

    /// What a field begins with.
    pub(crate) fn beginning(&mut self, alloc: Global) -> Result<Init, Refusal>
        ensures gave { IfOk result (λ i. Gave (APart Beginning) (AnInit i) self.old self.new) }
        ensures shorter { OnOk result (length self.new.tokens < length self.old.tokens) }
        ensures refused { IfErr result (IsRefused (APart Beginning) self.old) }
    {
        if self.sees(Terminal::IntToken) {
            return self.plain_number();
        }
        if self.sees(Terminal::Minus) {
            return self.negative();
        }
        if self.sees(Terminal::TextToken) {
            return self.plain_text(alloc);
        }
        self.plain_beginning()
    }
}
