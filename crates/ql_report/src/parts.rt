ghost use Rattle.std.specs.Prelude.{◌≡◌, ◌++◌, All, OnErr, OnOk, decimal, map};
ghost use Rattle.ql_lines.specs.Texts.{spaced_fields};
ghost use Rattle.ql_value.specs.Spelling.{followed, value_text};
ghost use Rattle.ql_value.specs.ValueGrammar.{IsValue};
ghost use Rattle.ql_report.specs.EffectTexts.{CarriesValues, payload_text, values_text};

use ql_base::{NoMemory, push_bytes, push_number};
use ql_exec::Payload;
use ql_value::{Value, Values, print_value};

/// Appends a text and then a number.
pub(crate) fn push_decimal(out: &mut Vec<u8>, text: &[u8], number: u32) -> Result<(), NoMemory>
    ensures { OnOk result (out.new.items ≡ out.old.items ++ (text.now ++ decimal number)) }
{
    push_bytes(out, text)?;
    push_number(out, number)
}

/// Appends ids, each after a space. If out of memory, the text is unchanged.
pub fn push_ids(out: &mut Vec<u8>, ids: &[u32]) -> Result<(), NoMemory>
    ensures ok { OnOk result (out.new.items ≡ out.old.items ++ spaced_fields (map decimal ids.now)) }
    ensures err { OnErr result (out.new.items ≡ out.old.items) }
{
    let mut text = Vec::new(*out.allocator());
    push_each_id(&mut text, ids)?;
    push_bytes(out, &text)
}

/// Appends ids, each after a space. If out of memory, some of them may have been appended.
pub(crate) fn push_each_id(out: &mut Vec<u8>, ids: &[u32]) -> Result<(), NoMemory>
    ensures { OnOk result (out.new.items ≡ out.old.items ++ spaced_fields (map decimal ids.now)) }
{
    for id in ids {
        push_decimal(out, b" ", *id)?;
    }
    Ok(())
}

/// Appends what an effect carries.
pub(crate) fn push_payload(out: &mut Vec<u8>, payload: &Payload) -> Result<(), NoMemory>
    ensures text { OnOk result (out.new.items ≡ out.old.items ++ payload_text payload.now) }
    ensures values { OnOk result (CarriesValues payload.now) }
{
    match payload {
        Payload::Nothing => push_bytes(out, b"-"),
        Payload::Emitted(values) => push_values(out, values),
    }
}

/// Appends values in parentheses.
pub(crate) fn push_values(out: &mut Vec<u8>, values: &Values) -> Result<(), NoMemory>
    ensures text { OnOk result (out.new.items ≡ out.old.items ++ values_text values.now) }
    ensures values { OnOk result (All IsValue values.now) }
{
    push_bytes(out, b"(")?;
    if let Some((first, rest)) = values.items().split_first() {
        print_value(out, first)?;
        push_followed(out, rest)?;
    }
    push_bytes(out, b")")
}

// The values after the first one.
fn push_followed(out: &mut Vec<u8>, values: &[Value]) -> Result<(), NoMemory>
    ensures text { OnOk result
        (out.new.items ≡ out.old.items ++ followed (map value_text values.now)) }
    ensures values { OnOk result (All IsValue values.now) }
{
    for value in values {
        push_bytes(out, b", ")?;
        print_value(out, value)?;
    }
    Ok(())
}
