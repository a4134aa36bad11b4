ghost use Rattle.std.specs.Prelude.{◌≡◌, ◌<◌, ◌≤◌, ◌∷◌, [], length, slice_index};
ghost use Rattle.ql_grammar.specs.Terminals.{is_same, keyword, mark};
ghost use Rattle.ql_grammar.specs.Tokens.{terminal_of};

use ql_lex::TokenKind;

/// What the grammar distinguishes in a token: a name, a number, a text, or one of the fixed words and marks.
#[derive(Clone, Copy)]
pub enum Terminal {
    NameToken,
    IntToken,
    TextToken,
    TypeWord,
    StateWord,
    OpWord,
    ContractWord,
    AnswerWord,
    EmitWord,
    WhenWord,
    ApplyWord,
    TransactionWord,
    UsesWord,
    ForallWord,
    TrueWord,
    FalseWord,
    UnitWord,
    EmptyWord,
    IfWord,
    ThenWord,
    ElseWord,
    AndWord,
    OrWord,
    NotWord,
    IntWord,
    BoolWord,
    TextWord,
    SetWord,
    MapWord,
    CurWord,
    TxnWord,
    VisWord,
    SoWord,
    SooWord,
    SameObjWord,
    EqWord,
    HbWord,
    HboWord,
    OpenBrace,
    CloseBrace,
    OpenParen,
    CloseParen,
    OpenBracket,
    CloseBracket,
    Comma,
    Semicolon,
    Colon,
    Dot,
    Equals,
    Assign,
    Arrow,
    IsEqual,
    NotEqual,
    Less,
    LessEqual,
    Greater,
    GreaterEqual,
    Plus,
    Minus,
    Times,
    AndMark,
    OrMark,
    Bar,
    Ampersand,
    /// No terminal of the grammar. No token of the lexer is one.
    NoTerminal,
}

/// Whether two terminals are the same.
#[tactic(auto, unfolding(crate::specs::Terminals::is_same))]
pub fn is_same(a: Terminal, b: Terminal) -> bool
    ensures { result ≡ is_same a b }
{
    a as u8 == b as u8
}

/// The keywords that begin with `a` to `c`: only those with the same first byte are compared.
#[tactic(auto, unfolding(crate::specs::Terminals::keyword, crate::specs::Terminals::expression_word, crate::specs::Terminals::logic_word, crate::specs::Terminals::relation_word))]
fn keyword_a_to_c(text: &[u8]) -> Terminal
    requires some { 0 < length text.now }
    requires first { slice_index text.now 0 ≤ 99 }
    ensures { result ≡ keyword text.now }
{
    match text[0] {
        b'a' if text == b"answer".as_slice() => Terminal::AnswerWord,
        b'a' if text == b"apply".as_slice() => Terminal::ApplyWord,
        b'a' if text == b"and".as_slice() => Terminal::AndWord,
        b'b' if text == b"bool".as_slice() => Terminal::BoolWord,
        b'c' if text == b"contract".as_slice() => Terminal::ContractWord,
        b'c' if text == b"cur".as_slice() => Terminal::CurWord,
        _ => Terminal::NoTerminal,
    }
}

/// The keywords that begin with `e` to `h`.
#[tactic(auto, unfolding(crate::specs::Terminals::keyword, crate::specs::Terminals::expression_word, crate::specs::Terminals::logic_word, crate::specs::Terminals::relation_word))]
fn keyword_e_to_h(text: &[u8]) -> Terminal
    requires some { 0 < length text.now }
    requires above { 99 < slice_index text.now 0 }
    requires below { slice_index text.now 0 ≤ 104 }
    ensures { result ≡ keyword text.now }
{
    match text[0] {
        b'e' if text == b"emit".as_slice() => Terminal::EmitWord,
        b'e' if text == b"empty".as_slice() => Terminal::EmptyWord,
        b'e' if text == b"eq".as_slice() => Terminal::EqWord,
        b'e' if text == b"else".as_slice() => Terminal::ElseWord,
        b'f' if text == b"forall".as_slice() => Terminal::ForallWord,
        b'f' if text == b"false".as_slice() => Terminal::FalseWord,
        b'h' if text == b"hb".as_slice() => Terminal::HbWord,
        b'h' if text == b"hbo".as_slice() => Terminal::HboWord,
        _ => Terminal::NoTerminal,
    }
}

/// The keywords that begin with `i` to `o`.
#[tactic(auto, unfolding(crate::specs::Terminals::keyword, crate::specs::Terminals::expression_word, crate::specs::Terminals::logic_word, crate::specs::Terminals::relation_word))]
fn keyword_i_to_o(text: &[u8]) -> Terminal
    requires some { 0 < length text.now }
    requires above { 104 < slice_index text.now 0 }
    requires below { slice_index text.now 0 ≤ 111 }
    ensures { result ≡ keyword text.now }
{
    match text[0] {
        b'i' if text == b"int".as_slice() => Terminal::IntWord,
        b'i' if text == b"if".as_slice() => Terminal::IfWord,
        b'm' if text == b"map".as_slice() => Terminal::MapWord,
        b'n' if text == b"not".as_slice() => Terminal::NotWord,
        b'o' if text == b"op".as_slice() => Terminal::OpWord,
        b'o' if text == b"or".as_slice() => Terminal::OrWord,
        _ => Terminal::NoTerminal,
    }
}

/// The keywords that begin with `s`.
#[tactic(auto, unfolding(crate::specs::Terminals::keyword, crate::specs::Terminals::expression_word, crate::specs::Terminals::logic_word, crate::specs::Terminals::relation_word))]
fn keyword_s(text: &[u8]) -> Terminal
    requires some { 0 < length text.now }
    requires above { 111 < slice_index text.now 0 }
    requires below { slice_index text.now 0 ≤ 115 }
    ensures { result ≡ keyword text.now }
{
    match text[0] {
        b's' if text == b"state".as_slice() => Terminal::StateWord,
        b's' if text == b"set".as_slice() => Terminal::SetWord,
        b's' if text == b"so".as_slice() => Terminal::SoWord,
        b's' if text == b"soo".as_slice() => Terminal::SooWord,
        b's' if text == b"sameobj".as_slice() => Terminal::SameObjWord,
        _ => Terminal::NoTerminal,
    }
}

/// The keywords that begin with `t`.
#[tactic(auto, unfolding(crate::specs::Terminals::keyword, crate::specs::Terminals::expression_word, crate::specs::Terminals::logic_word, crate::specs::Terminals::relation_word))]
fn keyword_t(text: &[u8]) -> Terminal
    requires some { 0 < length text.now }
    requires above { 115 < slice_index text.now 0 }
    requires below { slice_index text.now 0 ≤ 116 }
    ensures { result ≡ keyword text.now }
{
    match text[0] {
        b't' if text == b"type".as_slice() => Terminal::TypeWord,
        b't' if text == b"transaction".as_slice() => Terminal::TransactionWord,
        b't' if text == b"then".as_slice() => Terminal::ThenWord,
        b't' if text == b"text".as_slice() => Terminal::TextWord,
        b't' if text == b"true".as_slice() => Terminal::TrueWord,
        b't' if text == b"txn".as_slice() => Terminal::TxnWord,
        _ => Terminal::NoTerminal,
    }
}

/// The keywords that begin with `u` to `w`.
#[tactic(auto, unfolding(crate::specs::Terminals::keyword, crate::specs::Terminals::expression_word, crate::specs::Terminals::logic_word, crate::specs::Terminals::relation_word))]
fn keyword_u_to_w(text: &[u8]) -> Terminal
    requires some { 0 < length text.now }
    requires above { 116 < slice_index text.now 0 }
    ensures { result ≡ keyword text.now }
{
    match text[0] {
        b'u' if text == b"uses".as_slice() => Terminal::UsesWord,
        b'u' if text == b"unit".as_slice() => Terminal::UnitWord,
        b'v' if text == b"vis".as_slice() => Terminal::VisWord,
        b'w' if text == b"when".as_slice() => Terminal::WhenWord,
        _ => Terminal::NoTerminal,
    }
}

/// The keywords.
#[tactic(auto, unfolding(crate::specs::Terminals::keyword, crate::specs::Terminals::expression_word, crate::specs::Terminals::logic_word, crate::specs::Terminals::relation_word))]
fn keyword(text: &[u8]) -> Terminal
    ensures { result ≡ keyword text.now }
{
    match text.first() {
        None => Terminal::NoTerminal,
        Some(first) if *first <= b'c' => keyword_a_to_c(text),
        Some(first) if *first <= b'h' => keyword_e_to_h(text),
        Some(first) if *first <= b'o' => keyword_i_to_o(text),
        Some(first) if *first <= b's' => keyword_s(text),
        Some(first) if *first <= b't' => keyword_t(text),
        Some(_) => keyword_u_to_w(text),
    }
}

/// The marks of one byte.
#[tactic(auto, unfolding(crate::specs::Terminals::mark, crate::specs::Terminals::operator))]
fn single_mark(byte: u8) -> Terminal
    ensures { result ≡ mark (byte ∷ []) }
{
    match byte {
        b'{' => Terminal::OpenBrace,
        b'}' => Terminal::CloseBrace,
        b'(' => Terminal::OpenParen,
        b')' => Terminal::CloseParen,
        b'[' => Terminal::OpenBracket,
        b']' => Terminal::CloseBracket,
        b',' => Terminal::Comma,
        b';' => Terminal::Semicolon,
        b':' => Terminal::Colon,
        b'.' => Terminal::Dot,
        b'=' => Terminal::Equals,
        b'<' => Terminal::Less,
        b'>' => Terminal::Greater,
        b'+' => Terminal::Plus,
        b'-' => Terminal::Minus,
        b'*' => Terminal::Times,
        b'|' => Terminal::Bar,
        b'&' => Terminal::Ampersand,
        _ => Terminal::NoTerminal,
    }
}

/// The marks of two bytes.
#[tactic(auto, unfolding(crate::specs::Terminals::mark, crate::specs::Terminals::operator))]
fn paired_mark(first: u8, second: u8) -> Terminal
    ensures { result ≡ mark (first ∷ second ∷ []) }
{
    match (first, second) {
        (b':', b'=') => Terminal::Assign,
        (b'=', b'>') => Terminal::Arrow,
        (b'=', b'=') => Terminal::IsEqual,
        (b'!', b'=') => Terminal::NotEqual,
        (b'<', b'=') => Terminal::LessEqual,
        (b'>', b'=') => Terminal::GreaterEqual,
        (b'/', b'\\') => Terminal::AndMark,
        (b'\\', b'/') => Terminal::OrMark,
        _ => Terminal::NoTerminal,
    }
}

/// The marks.
#[tactic(auto, unfolding(crate::specs::Terminals::mark, crate::specs::Terminals::operator))]
fn mark(text: &[u8]) -> Terminal
    ensures { result ≡ mark text.now }
{
    match text {
        [byte] => single_mark(*byte),
        [first, second] => paired_mark(*first, *second),
        _ => Terminal::NoTerminal,
    }
}

/// The terminal of a token of this kind with these bytes.
#[tactic(auto, unfolding(crate::specs::Tokens::terminal_of))]
pub fn terminal_of(what: TokenKind, text: &[u8]) -> Terminal
    ensures { result ≡ terminal_of what text.now }
{
    match what {
        TokenKind::Name => Terminal::NameToken,
        TokenKind::Int => Terminal::IntToken,
        TokenKind::Text => Terminal::TextToken,
        TokenKind::Mark => mark(text),
        TokenKind::Keyword => keyword(text),
    }
}
