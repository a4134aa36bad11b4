// Warnings as sentences.
ghost use Rattle.std.specs.Prelude.{◌≡◌, IfOk};
ghost use Rattle.ql_warnings.specs.Texts.{name_of_operation, named_as_operation_text, placed, ruled_out_text, warning_text, warning_word};

use crate::warning::{Place, Warning};
use ql_base::{NoMemory, OpId, push_bytes, push_number};
use ql_typing::Typed;
use std::alloc::Global;

/// A word for each kind of warning, for programs.
pub fn warning_word(warning: Warning) -> &'static str
    ensures { result.now ≡ warning_word warning }
{
    match warning {
        Warning::NamedAsOperation { .. } => "named as operation",
        Warning::Unbracketed(_) => "unbracketed",
        Warning::AsksNothing => "asks nothing",
        Warning::NeverApplies(_) => "never applies",
        Warning::Unneeded(_) => "unneeded",
        Warning::RuledOut { .. } => "ruled out",
    }
}

/// The sentence of a warning, without a line feed.
pub fn warning_text(alloc: Global, t: &Typed, warning: Warning) -> Result<Vec<u8>, NoMemory>
    ensures { IfOk result (λ text. text.items ≡ warning_text t.now.program warning) }
{
    match warning {
        Warning::NamedAsOperation { op, .. } => named_text(alloc, name_in(t, op)),
        Warning::Unbracketed(place) => placed(alloc, place, UNBRACKETED),
        Warning::AsksNothing => Ok(Vec::from_slice(alloc, ASKS_NOTHING)?),
        Warning::NeverApplies(place) => placed(alloc, place, NEVER),
        Warning::Unneeded(place) => placed(alloc, place, UNNEEDED),
        Warning::RuledOut { op, at } => ruled_out_text(alloc, name_in(t, op), at.0),
    }
}

const UNBRACKETED: &[u8] =
    b"joins two statements with `=>` without brackets, so the second one is a part of the first: put brackets around each, as in (a => b) /\\ (c => d).";

const ASKS_NOTHING: &[u8] =
    b"The contract asks for nothing: it holds in every execution, whatever the level.";

const NEVER: &[u8] =
    b"can't hold with the rest before its `=>`, in any execution: so what comes after it is never required.";

const UNNEEDED: &[u8] = b"isn't needed: it holds wherever the rest before its `=>` does.";

fn name_in(t: &Typed, op: OpId) -> &[u8]
    ensures { result.now ≡ name_of_operation t.now.program op.0 }
{
    if op.0 < t.ops() {
        t.op(op).name.word.bytes()
    } else {
        b""
    }
}

// The sentence of a position, after its line and column.
fn placed(alloc: Global, place: Place, said: &[u8]) -> Result<Vec<u8>, NoMemory>
    ensures { IfOk result (λ text. text.items ≡ placed place said.now) }
{
    let mut text = Vec::from_slice(alloc, b"The part at ")?;
    push_number(&mut text, place.line)?;
    push_bytes(&mut text, b":")?;
    push_number(&mut text, place.column)?;
    push_bytes(&mut text, b" ")?;
    push_bytes(&mut text, said)?;
    Ok(text)
}

fn named_text(alloc: Global, name: &[u8]) -> Result<Vec<u8>, NoMemory>
    ensures { IfOk result (λ text. text.items ≡ named_as_operation_text name.now) }
{
    let mut text = Vec::from_slice(alloc, b"The variable ")?;
    push_bytes(&mut text, name)?;
    push_bytes(
        &mut text,
        b" has an operation's name, and stands for any effect: `a: ",
    )?;
    push_bytes(&mut text, name)?;
    push_bytes(&mut text, b"` stands for the operation's.")?;
    Ok(text)
}

fn ruled_out_text(alloc: Global, name: &[u8], at: u32) -> Result<Vec<u8>, NoMemory>
    ensures { IfOk result (λ text. text.items ≡ ruled_out_text name.now at) }
{
    let mut text = Vec::from_slice(alloc, b"The contract of ")?;
    push_bytes(&mut text, name)?;
    push_bytes(&mut text, b" is false here too, at effect ")?;
    push_number(&mut text, at)?;
    push_bytes(&mut text, b": where ")?;
    push_bytes(&mut text, name)?;
    push_bytes(&mut text, b" has its level, this execution can't happen.")?;
    Ok(text)
}
