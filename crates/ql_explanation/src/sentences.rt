// Facts as sentences.
ghost use Rattle.std.specs.Prelude.{◌≡◌, ◌<◌, IfSome, Some, length};
ghost use Rattle.ql_exec.specs.Effects.{effect_at};
ghost use Rattle.ql_typing.specs.Operations.{all_ops};
ghost use Rattle.ql_report.specs.EffectTexts.{AreNamed};

use ql_base::{EffId, NoMemory, push_bytes, push_number};
use ql_counter::{At, Counter};
use ql_exec::Effect;
use ql_lang::RelName;
use ql_typing::Typed;
use ql_warnings::{Claim, Fact};

// A sentence on two effects: who, what, and whom.
#[derive(Clone, Copy)]
struct Phrase {
    subject: EffId,
    verb: &'static str,
    object: EffId,
    end: &'static str,
}

/// Appends a line for each fact. What goes without saying is left out.
pub(crate) fn push_facts(
    text: &mut Vec<u8>,
    t: &Typed,
    c: &Counter,
    facts: &[Fact],
) -> Result<(), NoMemory>
    requires { AreNamed t.now.program 7 c.now.execution }
{
    for k in 0..facts.len() {
        let fact = facts[k];
        if !facts[..k].contains(&fact) && !is_plain(facts, fact) {
            push_bytes(text, b"  ")?;
            push_fact(text, t, c, fact)?;
            push_bytes(text, b"\n")?;
        }
    }
    Ok(())
}

// Whether a fact goes without saying: an effect is itself; or two effects are on one object, or different, where another
// fact relates them.
fn is_plain(facts: &[Fact], fact: Fact) -> bool {
    match (fact.claim, fact.holds) {
        (Claim::Related(RelName::Eq, _, _), true) => true,
        (Claim::Related(RelName::SameObj, a, b), true)
        | (Claim::Related(RelName::Eq, a, b), false) => facts.iter().any(|f| is_about(*f, a, b)),
        _ => false,
    }
}

fn is_about(fact: Fact, a: EffId, b: EffId) -> bool {
    match fact.claim {
        Claim::Related(RelName::SameObj | RelName::Eq, _, _) => false,
        Claim::Related(_, first, second) => {
            (first == a && second == b) || (first == b && second == a)
        }
        _ => false,
    }
}

fn push_fact(text: &mut Vec<u8>, t: &Typed, c: &Counter, fact: Fact) -> Result<(), NoMemory>
    requires { AreNamed t.now.program 7 c.now.execution }
{
    match fact.claim {
        Claim::Related(name, first, second) => {
            push_phrase(text, t, c, phrase_of(name, fact.holds, first, second))?;
            if is_later_unseen(name, fact.holds, first, second) {
                push_bytes(text, b", which is made later")?;
                push_bytes(
                    text,
                    if are_on_one(c, first, second) {
                        b","
                    } else {
                        b""
                    },
                )?;
            }
            push_object(text, t, c, name, first, second)
        }
        Claim::Inside(id) => {
            push_name(text, t, c, id)?;
            push_bytes(text, if fact.holds { b" is in" } else { b" isn't in" })?;
            push_run(text, c.at)
        }
        Claim::OneTxn(first, second) => {
            let phrase = Phrase {
                subject: first,
                verb: " and ",
                object: second,
                end: if fact.holds {
                    " are in the same transaction"
                } else {
                    " aren't in the same transaction"
                },
            };
            push_phrase(text, t, c, phrase)
        }
    }
}

fn phrase_of(name: RelName, holds: bool, first: EffId, second: EffId) -> Phrase {
    let (seer, verb, end) = match (name, holds) {
        (RelName::Vis, true) => (true, " sees ", ""),
        (RelName::Vis, false) => (true, " doesn't see ", ""),
        (RelName::So | RelName::Soo, true) => (false, " is before ", " in the same session"),
        (RelName::So | RelName::Soo, false) => (false, " isn't before ", " in the same session"),
        (RelName::Hb | RelName::Hbo, true) => (false, " happened before ", ""),
        (RelName::Hb | RelName::Hbo, false) => (false, " didn't happen before ", ""),
        (RelName::SameObj, true) => (false, " and ", " are on the same object"),
        (RelName::SameObj, false) => (false, " and ", " are on different objects"),
        (RelName::Eq, true) => (false, " and ", " are the same effect"),
        (RelName::Eq, false) => (false, " and ", " are different effects"),
    };
    if seer {
        Phrase {
            subject: second,
            verb,
            object: first,
            end,
        }
    } else {
        Phrase {
            subject: first,
            verb,
            object: second,
            end,
        }
    }
}

fn push_phrase(text: &mut Vec<u8>, t: &Typed, c: &Counter, phrase: Phrase) -> Result<(), NoMemory>
    requires { AreNamed t.now.program 7 c.now.execution }
{
    push_name(text, t, c, phrase.subject)?;
    push_bytes(text, phrase.verb.as_bytes())?;
    if phrase.subject == phrase.object {
        push_bytes(text, b"itself")?;
    } else {
        push_name(text, t, c, phrase.object)?;
    }
    push_bytes(text, phrase.end.as_bytes())
}

// Ends a sentence on two effects with whether they are on one object, which is named by its type. A sentence that compares
// them has no such end, nor one on an effect and itself.
#[tactic(auto, using(crate::proofs::Named::op_named_at))]
fn push_object(
    text: &mut Vec<u8>,
    t: &Typed,
    c: &Counter,
    name: RelName,
    first: EffId,
    second: EffId,
) -> Result<(), NoMemory>
    requires { AreNamed t.now.program 7 c.now.execution }
{
    match (name, effect(c, first)) {
        (RelName::SameObj | RelName::Eq, _) => Ok(()),
        _ if first == second => Ok(()),
        (_, Some(one)) if are_on_one(c, first, second) => {
            push_bytes(text, on_one_object(name).as_bytes())?;
            push_type(text, t, one)
        }
        _ => push_bytes(text, on_two_objects(name).as_bytes()),
    }
}

fn are_on_one(c: &Counter, first: EffId, second: EffId) -> bool {
    match (effect(c, first), effect(c, second)) {
        (Some(one), Some(other)) => one.object == other.object,
        _ => false,
    }
}

// What stands before the name of the object's type.
fn on_one_object(name: RelName) -> &'static str {
    if name == RelName::Hbo {
        " within the same "
    } else {
        " on the same "
    }
}

fn on_two_objects(name: RelName) -> &'static str {
    match name {
        RelName::Vis => ", on another object",
        RelName::Soo => " and on the same object",
        RelName::Hbo => " within one object",
        _ => "",
    }
}

fn push_type(text: &mut Vec<u8>, t: &Typed, effect: &Effect) -> Result<(), NoMemory>
    requires { effect.now.op.0 < length (all_ops t.now.program.types) }
{
    push_bytes(text, t.type_decl(t.kind_of(effect.op)).name.word.bytes())
}

// Whether the fact is that an effect doesn't see a later one. None ever does.
fn is_later_unseen(name: RelName, holds: bool, first: EffId, second: EffId) -> bool {
    name == RelName::Vis && !holds && first.0 > second.0
}

// An effect by its operation and its number, as `withdraw at 2`.
#[tactic(auto, using(crate::proofs::Named::op_named_at))]
fn push_name(text: &mut Vec<u8>, t: &Typed, c: &Counter, id: EffId) -> Result<(), NoMemory>
    requires { AreNamed t.now.program 7 c.now.execution }
{
    if let Some(effect) = effect(c, id) {
        push_bytes(text, t.op(effect.op).name.word.bytes())?;
        push_bytes(text, b" at ")?;
    }
    push_number(text, id.0)
}

fn push_run(text: &mut Vec<u8>, at: At) -> Result<(), NoMemory> {
    push_bytes(text, b" transaction")?;
    if let At::Run(run) = at {
        push_bytes(text, b" ")?;
        push_number(text, run.0)?;
    }
    Ok(())
}

fn effect(c: &Counter, id: EffId) -> Option<&Effect>
    ensures { IfSome result (λ e. effect_at c.now.execution id.0 ≡ Some e.now) }
{
    if 1 <= id.0 && id.0 <= c.execution.len() {
        Some(c.execution.get(id))
    } else {
        None
    }
}
