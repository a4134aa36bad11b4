// `=>` next to `/\` or `\/` without brackets.
ghost use Rattle.std.specs.Prelude.{◌≡◌, ◌+◌, ◌<◌, ◌≤◌, ◌⊎◌, ◌^◌, ℕ, IfOk, IfSome, MatchBool, MatchOption, Ok, OnOk, Some, codes, drop, length, slice_get};
ghost use Rattle.ql_lex.specs.Tokens.{AreSpans, Lexes};
ghost use Rattle.ql_lex.specs.declared.token.Token.{Token};
ghost use Rattle.ql_warnings.specs.Kept.{AreBracketWarnings, AreJoined};
ghost use Rattle.ql_warnings.specs.Places.{IsPlaceOf};
ghost use Rattle.ql_warnings.specs.declared.unbracketed.Sign.TheVariants.{Arrow};
ghost use Rattle.ql_warnings.specs.declared.warning.Place.{Place};
ghost use Rattle.std.specs.Str.{bytes_eq};
ghost use Rattle.ql_warnings.specs.Brackets.{IsJoinedTo, closes_bracket, deeper, first_junction, joins, met, opens, sign_of, reported, token_word};

use crate::lexed::Lexed;
use crate::place::place_in;
use crate::warning::{Place, Warning};
use ql_base::NoMemory;
use ql_lex::Token;
use std::alloc::Global;

// What a token does in a contract.
#[derive(Clone, Copy, PartialEq, Eq)]
pub(crate) enum Sign {
    Opens,
    Closes,
    Arrow,
    Joins,
    Ends,
    Plain,
}

fn sign_of(word: &[u8]) -> Sign
    ensures { result ≡ sign_of word.now }
{
    if opens(word) {
        Sign::Opens
    } else if closes(word) {
        Sign::Closes
    } else if is_arrow(word) {
        Sign::Arrow
    } else if joins(word) {
        Sign::Joins
    } else if ends(word) {
        Sign::Ends
    } else {
        Sign::Plain
    }
}

fn opens(word: &[u8]) -> bool
    ensures { result ≡ opens word.now }
{
    word == b"(".as_slice() || word == b"[".as_slice() || word == b"{".as_slice()
}

fn closes(word: &[u8]) -> bool
    ensures { result ≡ closes_bracket word.now }
{
    word == b")".as_slice() || word == b"]".as_slice() || word == b"}".as_slice()
}

fn is_arrow(word: &[u8]) -> bool
    ensures { result ≡ bytes_eq word.now (codes "=>") }
{
    word == b"=>".as_slice()
}

fn joins(word: &[u8]) -> bool
    ensures { result ≡ joins word.now }
{
    word == b"/\\".as_slice() || word == b"\\/".as_slice()
}

fn ends(word: &[u8]) -> bool
    ensures { result ≡ bytes_eq word.now (codes ";") }
{
    word == b";".as_slice()
}

/// The part of a source from one offset up to another, which is excluded.
#[derive(Clone, Copy)]
pub(crate) struct Extent {
    pub(crate) start: u32,
    pub(crate) end: u32,
}

/// A warning for each `/\` or `\/` of an extent that is between two `=>` without brackets.
pub(crate) fn unbracketed(
    alloc: Global,
    lexed: &Lexed,
    extent: Extent,
) -> Result<Vec<Warning>, NoMemory>
    ensures { IfOk result
        (λ found. AreBracketWarnings lexed.now extent.start extent.end found.items) }
{
    ql_lex::one_answer();
    let mut found = Vec::new(alloc);
    let source = lexed.source();
    let tokens = lexed.tokens();
    for k in 0..tokens.len() {
        push_joined(&mut found, source, tokens, k, extent)?;
    }
    Ok(found)
}

// Appends the warning of the `/\` or `\/` between a token and the next `=>`, if there is one.
fn push_joined(
    found: &mut Vec<Warning>,
    source: &[u8],
    tokens: &[Token],
    k: usize,
    extent: Extent,
) -> Result<(), NoMemory>
    requires few { length source.now < 2 ^ 32 }
    requires lexed { Lexes 0 source.now (Ok tokens.now) }
    requires spans { AreSpans 0 (length source.now) tokens.now }
    requires there { k < length tokens.now }
    ensures { OnOk result
        (AreJoined source.now extent.start extent.end tokens.now k found.old.items
        → AreJoined source.now extent.start extent.end tokens.now (k + 1) found.new.items) }
{
    match joined_at(source, tokens, k, extent) {
        Some(place) => {
            found.push(Warning::Unbracketed(place))?;
            Ok(())
        }
        None => Ok(()),
    }
}

fn token_at(tokens: &[Token], k: usize) -> Token
    requires { k < length tokens.now }
    ensures { slice_get tokens.now k ≡ Some result }
{
    tokens[k]
}

// The position of the `/\` or `\/` between a token and the next `=>`, all in an extent.
fn joined_at(source: &[u8], tokens: &[Token], k: usize, extent: Extent) -> Option<Place>
    requires few { length source.now < 2 ^ 32 }
    requires spans { AreSpans 0 (length source.now) tokens.now }
    requires there { k < length tokens.now }
    ensures { MatchOption result
        ((place : Place) → IsPlaceOf source.now place
        → IsJoinedTo source.now extent.start tokens.now k place.at → place.at < extent.end → ⊥)
        (λ place. IsPlaceOf source.now place
        × IsJoinedTo source.now extent.start tokens.now k place.at × (place.at < extent.end)) }
{
    match joined_from(source, tokens, k, extent.start) {
        Some(at) => place_before(source, at, extent.end),
        None => None,
    }
}

// The offset of the `/\` or `\/` between a token and the next `=>`, if the token is an `=>` at or after `start`.
fn joined_from(source: &[u8], tokens: &[Token], k: usize, start: u32) -> Option<u32>
    requires spans { AreSpans 0 (length source.now) tokens.now }
    requires there { k < length tokens.now }
    ensures { MatchOption result ((at : ℕ) → IsJoinedTo source.now start tokens.now k at → ⊥)
        (IsJoinedTo source.now start tokens.now k) }
{
    let token = token_at(tokens, k);
    if token.from < start {
        return None;
    }
    if !points(sign_at(source, token)) {
        return None;
    }
    joined(source, tokens, k + 1, 0, None)
}

fn place_before(source: &[u8], at: u32, end: u32) -> Option<Place>
    requires { length source.now < 2 ^ 32 }
    ensures { MatchOption result ((end ≤ at) ⊎ (length source.now ≤ at))
        (λ place. IsPlaceOf source.now place × (place.at ≡ at) × (at < end)) }
{
    if end <= at {
        return None;
    }
    place_in(source, at)
}

// The first `/\` or `\/` before the next `=>`, both outside brackets, from a token at this depth of brackets on.
fn joined(
    source: &[u8],
    tokens: &[Token],
    k: usize,
    depth: usize,
    found: Option<u32>,
) -> Option<u32>
    requires spans { AreSpans 0 (length source.now) tokens.now }
    requires depth { depth ≤ k }
    ensures { result ≡ first_junction source.now depth found (drop k tokens.now) }
{
    if tokens.len() <= k {
        return None;
    }
    let token = token_at(tokens, k);
    let sign = sign_at(source, token);
    match deeper(sign, depth) {
        Some(inside) => {
            let next = met(sign, depth, token.from, found);
            joined(source, tokens, k + 1, inside, next)
        }
        None => reported(sign, found),
    }
}

fn points(sign: Sign) -> bool
    ensures { MatchBool result (sign ≡ Arrow) (sign ≡ Arrow → ⊥) }
{
    matches!(sign, Sign::Arrow)
}

fn sign_at(source: &[u8], token: Token) -> Sign
    requires order { token.from ≤ token.to }
    requires within { token.to ≤ length source.now }
    ensures { result ≡ sign_of (token_word source.now token) }
{
    sign_of(word_of(source, token))
}

fn word_of(source: &[u8], token: Token) -> &[u8]
    requires order { token.from ≤ token.to }
    requires within { token.to ≤ length source.now }
    ensures { result.now ≡ token_word source.now token }
{
    &source[token.from as usize..token.to as usize]
}

// The depth of brackets after a token; none where the search ends.
fn deeper(sign: Sign, depth: usize) -> Option<usize>
    requires { depth < 18446744073709551615 }
    ensures exact { result ≡ deeper sign depth }
    ensures near { IfSome result (λ inside. inside ≤ depth + 1) }
{
    match sign {
        Sign::Opens => Some(depth + 1),
        Sign::Closes => depth.checked_sub(1),
        Sign::Arrow if depth == 0 => None,
        Sign::Ends => None,
        Sign::Arrow | Sign::Joins | Sign::Plain => Some(depth),
    }
}

// The offset of the first `/\` or `\/` so far, after a token.
fn met(sign: Sign, depth: usize, from: u32, found: Option<u32>) -> Option<u32>
    ensures { result ≡ met sign depth from found }
{
    match (sign, found) {
        (Sign::Joins, None) if depth == 0 => Some(from),
        _ => found,
    }
}

// What was found, if the search ends at an `=>`.
fn reported(sign: Sign, found: Option<u32>) -> Option<u32>
    ensures { result ≡ reported sign found }
{
    match sign {
        Sign::Arrow => found,
        _ => None,
    }
}
