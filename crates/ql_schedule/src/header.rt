ghost use Rattle.std.specs.Prelude.{◌≡◌, ◌∷◌, [], IsTrue, ◌↔◌, MatchOption, List, ℕ, codes, decimal};
ghost use Rattle.ql_base.specs.Names.{IsName};
ghost use Rattle.ql_lines.specs.Fields.{Fields};
ghost use Rattle.ql_schedule.specs.declared.header.Declaration.{Declaration};
ghost use Rattle.ql_schedule.specs.Headers.{IsDeclaration, IsReplicas, IsTitle, IsVersion};
ghost use Rattle.ql_schedule.specs.Parts.{parts_of};

use crate::event_parts::one_number;
use crate::parts::{after_name, after_word, is_end};
use ql_base::Word;

/// A line between the number of replicas and the events, as it is written.
#[derive(Clone, Copy)]
pub(crate) enum Declaration {
    Object { name: Word, kind: Word },
    /// The keyword that ends the declarations; the events follow.
    Events,
}

/// The version of the format, if a line is its title.
pub(crate) fn read_title(text: &[u8]) -> Option<u32>
    ensures { MatchOption result ((version : ℕ) → IsTitle (parts_of text.now) version → ⊥)
        (λ version. IsTitle (parts_of text.now) version) }
{
    match after_title(text) {
        Some(remaining) => read_version(remaining),
        None => None,
    }
}

fn after_title(text: &[u8]) -> Option<&[u8]>
    ensures { MatchOption result
        ((rest : Fields) → parts_of text.now ≡ codes "quelea" ∷ codes "schedule" ∷ rest → ⊥)
        (λ remaining. parts_of text.now ≡ codes "quelea" ∷ codes "schedule" ∷ parts_of remaining.now) }
{
    let rest = after_word(text, b"quelea")?;
    let remaining = after_word(rest, b"schedule")?;
    Some(remaining)
}

// The version, if a text has nothing else.
fn read_version(text: &[u8]) -> Option<u32>
    ensures { MatchOption result
        ((version : ℕ) → IsVersion version → parts_of text.now ≡ decimal version ∷ [] → ⊥)
        (λ version. IsVersion version × (parts_of text.now ≡ decimal version ∷ [])) }
{
    if is_word(text, b"1") {
        Some(1)
    } else if is_word(text, b"2") {
        Some(2)
    } else {
        None
    }
}

// Whether a text has this word and nothing else.
fn is_word(text: &[u8], word: &[u8]) -> bool
    ensures { IsTrue result ↔ (parts_of text.now ≡ word.now ∷ []) }
{
    match after_word(text, word) {
        Some(remaining) => is_end(remaining),
        None => false,
    }
}

#[tactic(auto, using(crate::proofs::Fronts::no_count))]
/// The number of replicas on a line.
pub(crate) fn read_replicas(text: &[u8]) -> Option<u64>
    ensures { MatchOption result ((n : ℕ) → IsReplicas (parts_of text.now) n → ⊥)
        (λ n. IsReplicas (parts_of text.now) n) }
{
    let rest = after_word(text, b"replicas")?;
    one_number(rest)
}

/// The declaration on a line.
pub(crate) fn read_declaration(text: &[u8]) -> Option<Declaration>
    ensures { MatchOption result ((d : Declaration) → IsDeclaration (parts_of text.now) d → ⊥)
        (λ d. IsDeclaration (parts_of text.now) d) }
{
    if is_word(text, b"events") {
        return Some(Declaration::Events);
    }
    let (name, kind) = object(text)?;
    Some(Declaration::Object {
        name: Word::of(name),
        kind: Word::of(kind),
    })
}

// An object's name, and that of its type.
fn object(text: &[u8]) -> Option<(&[u8], &[u8])>
    ensures { MatchOption result
        ((name kind : List ℕ) → IsName name → IsName kind
        → parts_of text.now ≡ codes "object" ∷ name ∷ kind ∷ [] → ⊥)
        (λ x. IsName x.0.now × IsName x.1.now
        × (parts_of text.now ≡ codes "object" ∷ x.0.now ∷ x.1.now ∷ [])) }
{
    let rest = after_word(text, b"object")?;
    let (name, rest) = after_name(rest)?;
    let (kind, remaining) = after_name(rest)?;
    if is_end(remaining) {
        Some((name, kind))
    } else {
        None
    }
}
