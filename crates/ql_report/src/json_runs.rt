ghost use Rattle.std.specs.Prelude.{◌≡◌, Some, IfOk, length};
ghost use Rattle.ql_typing.specs.Operations.{all_ops};
ghost use Rattle.ql_report.specs.EffectTexts.{AreNamed};
ghost use Rattle.ql_report.specs.ReplyTexts.{AreAnswered};
ghost use Rattle.serde_json.specs.Read.{read};
ghost use Rattle.ql_report.specs.JsonRuns.{run_data, run_json};

use crate::json_printing::{push_effects, push_levels, push_replies};
use ql_base::{Names, NoMemory, push_bytes};
use ql_exec::Execution;
use ql_levels::Levels;
use ql_machine::Reply;
use ql_typing::Typed;
use std::alloc::Global;

/// A run in JSON, on one line: the levels of the program, the replies to the events in order, and the execution that
/// they made, with these names for the objects. By `serde_json`'s grammar the text reads back as the same value.
pub fn json_run(
    alloc: Global,
    t: &Typed,
    objects: &Names,
    l: &Levels,
    replies: &Vec<Reply>,
    x: &Execution,
) -> Result<Vec<u8>, NoMemory>
    requires ops { length l.now.ops ≡ length (all_ops t.now.program.types) }
    requires txns { length l.now.txns ≡ length t.now.program.txns }
    requires named { AreNamed t.now.program (length objects.now) x.now }
    requires answered { AreAnswered x.now replies.now.items }
    ensures text { IfOk result
        (λ text. text.items ≡ run_json t.now.program objects.now l.now replies.now.items x.now) }
    ensures again { IfOk result
        (λ text. read text.items
        ≡ Some (run_data t.now.program objects.now l.now replies.now.items x.now)) }
{
    let mut text = Vec::new(alloc);
    push_bytes(&mut text, b"{\"execution\":")?;
    push_effects(alloc, &mut text, t, objects, x)?;
    push_bytes(&mut text, b",\"levels\":")?;
    push_levels(alloc, &mut text, t, l)?;
    push_bytes(&mut text, b",\"replies\":")?;
    push_replies(alloc, &mut text, replies.as_slice(), x)?;
    push_bytes(&mut text, b"}\n")?;
    Ok(text)
}
