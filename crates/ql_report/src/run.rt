ghost use Rattle.std.specs.Prelude.{◌≡◌, IfOk, OnOk, length};
ghost use Rattle.ql_typing.specs.Operations.{all_ops};
ghost use Rattle.ql_report.specs.EffectTexts.{AreNamed, HaveValues};
ghost use Rattle.ql_report.specs.ReplyTexts.{AreAnswered};
ghost use Rattle.ql_report.specs.RunTexts.{run_text};

use crate::effects::push_effects;
use crate::levels::print_levels;
use crate::replies::push_replies;
use ql_base::{Names, NoMemory, push_bytes};
use ql_exec::Execution;
use ql_levels::Levels;
use ql_machine::Reply;
use ql_typing::Typed;
use std::alloc::Global;

/// The text of a run: the levels of the program, the replies to the events in order, and the execution that they made,
/// with these names for the objects. The printed values are spelled by the grammar.
pub fn print_run(
    alloc: Global,
    t: &Typed,
    objects: &Names,
    l: &Levels,
    replies: &Vec<Reply>,
    x: &Execution,
) -> Result<Vec<u8>, NoMemory>
    requires ops { length l.now.ops ≡ length (all_ops t.now.program.types) }
    requires txns { length l.now.txns ≡ length t.now.program.txns }
    requires named { AreNamed t.now.program (length objects.now) x.now }
    requires answered { AreAnswered x.now replies.now.items }
    ensures text { IfOk result
        (λ text. text.items ≡ run_text t.now.program objects.now l.now replies.now.items x.now) }
    ensures values { OnOk result (HaveValues x.now) }
{
    let mut text = Vec::new(alloc);
    push_bytes(&mut text, b"levels\n")?;
    push_bytes(&mut text, &print_levels(alloc, t, l)?)?;
    push_bytes(&mut text, b"replies\n")?;
    push_replies(&mut text, replies, x)?;
    push_bytes(&mut text, b"execution\n")?;
    push_effects(&mut text, t, objects, x)?;
    push_bytes(&mut text, b"end\n")?;
    Ok(text)
}
