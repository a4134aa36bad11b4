ghost use Rattle.std.specs.Prelude.{◌≡◌, ◌<◌, ◌++◌, ◌∷◌, [], All, IfOk, OnOk, codes, decimal, length};
ghost use Rattle.ql_lines.specs.Texts.{spaced_fields, joined};
ghost use Rattle.ql_typing.specs.Names.{op_name};
ghost use Rattle.ql_value.specs.Spelling.{value_text};
ghost use Rattle.ql_value.specs.ValueGrammar.{IsValue};
ghost use Rattle.ql_report.specs.EffectTexts.{AreNamed, HasValues, HaveValues, IsDeclared, IsNamed, effect_fields, effects_text, member_text, object_name, values_text};

use crate::parts::{push_decimal, push_each_id, push_payload, push_values};
use ql_base::{EffId, Names, NoMemory, push_bytes, push_number};
use ql_exec::{Effect, Execution, Member};
use ql_typing::Typed;
use ql_value::{Value, Values, print_value};
use std::alloc::Global;

/// The lines of an execution's effects, with these names for the objects. The printed values are spelled by the
/// grammar.
pub fn print_effects(
    alloc: Global,
    t: &Typed,
    objects: &Names,
    x: &Execution,
) -> Result<Vec<u8>, NoMemory>
    requires { AreNamed t.now.program (length objects.now) x.now }
    ensures text { IfOk result (λ text. text.items ≡ effects_text t.now.program objects.now x.now) }
    ensures values { OnOk result (HaveValues x.now) }
{
    let mut text = Vec::new(alloc);
    push_effects(&mut text, t, objects, x)?;
    Ok(text)
}

/// Appends the lines of an execution's effects.
pub(crate) fn push_effects(
    out: &mut Vec<u8>,
    t: &Typed,
    objects: &Names,
    x: &Execution,
) -> Result<(), NoMemory>
    requires named { AreNamed t.now.program (length objects.now) x.now }
    ensures text { OnOk result
        (out.new.items ≡ out.old.items ++ effects_text t.now.program objects.now x.now) }
    ensures values { OnOk result (HaveValues x.now) }
{
    for k in 0..x.len() {
        let id = EffId(k + 1);
        push_effect(out, t, objects, id, x.get(id))?;
    }
    Ok(())
}

fn push_effect(
    out: &mut Vec<u8>,
    t: &Typed,
    objects: &Names,
    id: EffId,
    effect: &Effect,
) -> Result<(), NoMemory>
    requires { IsNamed t.now.program (length objects.now) effect.now }
    ensures text { OnOk result
        (out.new.items ≡ out.old.items
        ++ (joined (effect_fields t.now.program objects.now id.0 effect.now) ++ 10 ∷ [])) }
    ensures values { OnOk result (HasValues effect.now) }
{
    push_heading(out, t, objects, id, effect)?;
    push_call(out, &effect.args, &effect.answer)?;
    push_bytes(out, b" emit ")?;
    push_payload(out, &effect.payload)?;
    push_session(out, t, effect)?;
    push_each_id(out, effect.seen.items())?;
    push_bytes(out, b"\n")
}

// The number of an effect, its object and its operation.
fn push_heading(
    out: &mut Vec<u8>,
    t: &Typed,
    objects: &Names,
    id: EffId,
    effect: &Effect,
) -> Result<(), NoMemory>
    requires { IsNamed t.now.program (length objects.now) effect.now }
    ensures { OnOk result
        (out.new.items ≡ out.old.items
        ++ joined (codes "effect" ∷ decimal id.0 ∷ object_name objects.now effect.now.object.0
        ∷ op_name t.now.program effect.now.op.0 ∷ [])) }
{
    push_bytes(out, b"effect ")?;
    push_number(out, id.0)?;
    push_bytes(out, b" ")?;
    push_bytes(out, objects.name(effect.object.0).bytes())?;
    push_bytes(out, b" ")?;
    push_bytes(out, t.op(effect.op).name.word.bytes())
}

// What an operation was called with, and what it answered.
fn push_call(out: &mut Vec<u8>, args: &Values, answer: &Value) -> Result<(), NoMemory>
    ensures text { OnOk result
        (out.new.items ≡ out.old.items
        ++ spaced_fields (values_text args.now ∷ codes "=" ∷ value_text answer.now ∷ [])) }
    ensures args { OnOk result (All IsValue args.now) }
    ensures answer { OnOk result (IsValue answer.now) }
{
    push_bytes(out, b" ")?;
    push_values(out, args)?;
    push_bytes(out, b" = ")?;
    print_value(out, answer)
}

// The session of an effect, its transaction and its stamp, and the word before the ids of what it saw.
fn push_session(out: &mut Vec<u8>, t: &Typed, effect: &Effect) -> Result<(), NoMemory>
    requires { IsDeclared t.now.program effect.now.member }
    ensures { OnOk result (out.new.items ≡ out.old.items
        ++ spaced_fields (codes "session" ∷ decimal effect.now.session.0 ∷ codes "txn" ∷ member_text t.now.program effect.now.member
        ∷ codes "stamp" ∷ decimal effect.now.stamp ∷ codes "vis" ∷ [])) }
{
    push_decimal(out, b" session ", effect.session.0)?;
    push_bytes(out, b" txn ")?;
    push_member(out, t, effect.member)?;
    push_decimal(out, b" stamp ", effect.stamp)?;
    push_bytes(out, b" vis")
}

fn push_member(out: &mut Vec<u8>, t: &Typed, member: Member) -> Result<(), NoMemory>
    requires { IsDeclared t.now.program member }
    ensures { OnOk result (out.new.items ≡ out.old.items ++ member_text t.now.program member) }
{
    match member {
        Member::Alone => push_bytes(out, b"-"),
        Member::Inside(run, decl) => {
            push_number(out, run.0)?;
            push_bytes(out, b":")?;
            push_bytes(out, t.txn(decl).name.word.bytes())
        }
    }
}
