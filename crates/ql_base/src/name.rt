ghost use Rattle.std.specs.Prelude.{◌≡◌, ◌↔◌, ◌<◌, ◌∷◌, [], IsTrue, bytes_eq, length};
ghost use Rattle.std.specs.List.{list_all, list_any, prefix_len};
ghost use Rattle.ql_base.specs.Bytes.{is_name_byte};
ghost use Rattle.ql_base.specs.Names.{is_keyword, IsName, IsWord};

use crate::bytes::{is_lower, is_name_byte};
use crate::limits::MAX_NAME_BYTES;

/// Whether this word is a keyword of the source language.
#[tactic(auto, unfolding(crate::specs::Names::is_keyword, crate::specs::Names::keywords))]
pub fn is_keyword(word: &[u8]) -> bool
    ensures { result ≡ is_keyword word.now }
{
    !word.is_empty() && is_listed(word)
}

// Whether a word is a keyword. It is compared only with those that begin with the same byte.
#[tactic(auto, unfolding(crate::specs::Names::is_keyword, crate::specs::Names::keywords))]
fn is_listed(word: &[u8]) -> bool
    requires { 0 < length word.now }
    ensures { result ≡ is_keyword word.now }
{
    match word[0] {
        b'a' => is_one_of(word, b"answer", b"apply", b"and"),
        b'b' => b"bool".as_slice() == word,
        b'c' => is_either(word, b"contract", b"cur"),
        b'e' => is_either(word, b"emit", b"empty") || is_either(word, b"else", b"eq"),
        b'f' => is_either(word, b"forall", b"false"),
        b'h' => is_either(word, b"hb", b"hbo"),
        b'i' => is_either(word, b"if", b"int"),
        b'm' => b"map".as_slice() == word,
        b'n' => b"not".as_slice() == word,
        b'o' => is_either(word, b"op", b"or"),
        b's' => is_one_of(word, b"state", b"set", b"so") || is_either(word, b"soo", b"sameobj"),
        b't' => {
            is_one_of(word, b"type", b"transaction", b"true")
                || is_one_of(word, b"then", b"text", b"txn")
        }
        b'u' => is_either(word, b"uses", b"unit"),
        b'v' => b"vis".as_slice() == word,
        b'w' => b"when".as_slice() == word,
        _ => false,
    }
}

fn is_one_of(word: &[u8], first: &[u8], second: &[u8], third: &[u8]) -> bool
    ensures { result ≡ list_any (λ k. bytes_eq k word.now) (first.now ∷ second.now ∷ third.now ∷ []) }
{
    first == word || second == word || third == word
}

fn is_either(word: &[u8], first: &[u8], second: &[u8]) -> bool
    ensures { result ≡ list_any (λ k. bytes_eq k word.now) (first.now ∷ second.now ∷ []) }
{
    first == word || second == word
}

/// The length in bytes of the longest prefix of `text` that a name may contain.
pub fn name_bytes(text: &[u8]) -> usize
    ensures { result ≡ prefix_len is_name_byte text.now }
{
    text.iter().take_while(|b| is_name_byte(**b)).count()
}

/// Whether `text` is a name: a lower-case letter, then lower-case letters, digits and `_`, at most
/// 32 bytes long and not a keyword.
pub fn is_name(text: &[u8]) -> bool
    ensures { IsTrue result ↔ IsName text.now }
{
    is_word(text) && text.len() <= MAX_NAME_BYTES && !is_keyword(text)
}

// Whether `text` is a name or a keyword, or would be one but for its length.
fn is_word(text: &[u8]) -> bool
    ensures { IsTrue result ↔ IsWord text.now }
{
    !text.is_empty() && is_lower(text[0]) && are_name_bytes(text)
}

// Whether a name may contain each of these bytes. All are tested, which is faster than stopping early.
fn are_name_bytes(text: &[u8]) -> bool
    ensures { result ≡ list_all is_name_byte text.now }
{
    let mut all = true;
    for b in text {
        all = all & is_name_byte(*b);
    }
    all
}
