ghost use Rattle.std.specs.Prelude.{◌≡◌, ◌<◌, ◌^◌, ◌+◌, length, slice_get, IfOk, OnOk, Some};
ghost use Rattle.ql_base.specs.Names.{IsName};
ghost use Rattle.ql_classify.specs.Targets.{goals_at, targets};
ghost use Rattle.ql_ground.specs.declared.goal.Goal.{Goal};
ghost use Rattle.ql_typing.specs.Operations.{all_ops};
ghost use Rattle.ql_classify.specs.Least.{AreLevelsOf};
ghost use Rattle.ql_commands.specs.Names.{HasNames};
ghost use Rattle.ql_commands.specs.Prove.{IsCertificateFor, ProveSays, level_of, name_of};

use crate::refusals::refusal;
use crate::source::read_source;
use crate::source_fault::bad_source;
use ql_base::{DeclId, NoMemory, OpId, Word};
use ql_cert::{SectionLevel, title_text, with_end, with_section};
use ql_classify::Classified;
use ql_levels::Levels;
use ql_reply::{Cause, Reply, Status};
use ql_typing::Typed;
use std::alloc::Global;

/// The certificate of a source's least levels, or what fails first.
pub fn prove(alloc: Global, source: &[u8]) -> Result<Reply, NoMemory>
    requires { length source.now < 2 ^ 32 }
    ensures { IfOk result (λ reply. ProveSays source.now reply.status reply.text.items) }
{
    let typed = match read_source(alloc, source) {
        Ok(typed) => typed,
        Err(fault) => return bad_source(alloc, fault),
    };
    match ql_classify::classify(alloc, &typed) {
        Ok(classified) => Ok(Reply {
            status: Status::Done,
            text: certificate(alloc, &classified)?,
            cause: Cause::Text,
        }),
        Err(why) => refusal(alloc, &typed, why),
    }
}

// The text of the certificate of a program's levels: a section for each target at its level.
fn certificate(alloc: Global, classified: &Classified) -> Result<Vec<u8>, NoMemory>
    requires { HasNames classified.now.program }
    ensures levels { OnOk result (AreLevelsOf classified.now.program classified.now.levels) }
    ensures text { IfOk result
        (λ text. IsCertificateFor classified.now.program classified.now.levels text.items) }
{
    let typed = classified.typed();
    let levels = classified.levels();
    let mut text = title_text(alloc)?;
    for target in 0..typed.ops() + typed.txns() {
        let (name, level) = heading(typed, levels, target);
        text = with_section(text, name, level, classified.refutation(target))?;
    }
    text = with_end(text)?;
    Ok(text)
}

// The name of a target, and its level.
fn heading(t: &Typed, levels: &Levels, target: u32) -> (Word, SectionLevel)
    requires names { HasNames t.now.program }
    requires ops { length levels.now.ops ≡ length (all_ops t.now.program.types) }
    requires txns { length levels.now.txns ≡ length t.now.program.txns }
    requires target { target < targets t.now.program }
    ensures is_name { IsName result.0 }
    ensures name { (g : Goal) → slice_get (goals_at levels.now) target ≡ Some g
        → result.0 ≡ name_of t.now.program g }
    ensures level { (g : Goal) → slice_get (goals_at levels.now) target ≡ Some g
        → result.1 ≡ level_of g }
{
    if target < t.ops() {
        op_heading(t, levels, OpId(target))
    } else {
        txn_heading(t, levels, DeclId(target - t.ops()))
    }
}

fn op_heading(t: &Typed, levels: &Levels, o: OpId) -> (Word, SectionLevel)
    requires names { HasNames t.now.program }
    requires level { o.0 < length levels.now.ops }
    requires op { o.0 < length (all_ops t.now.program.types) }
    ensures is_name { IsName result.0 }
    ensures name { (g : Goal) → slice_get (goals_at levels.now) o.0 ≡ Some g
        → result.0 ≡ name_of t.now.program g }
    ensures level { (g : Goal) → slice_get (goals_at levels.now) o.0 ≡ Some g
        → result.1 ≡ level_of g }
{
    (t.op(o).name.word, SectionLevel::Op(levels.op(o)))
}

fn txn_heading(t: &Typed, levels: &Levels, d: DeclId) -> (Word, SectionLevel)
    requires names { HasNames t.now.program }
    requires level { d.0 < length levels.now.txns }
    requires txn { d.0 < length t.now.program.txns }
    ensures is_name { IsName result.0 }
    ensures name { (g : Goal)
        → slice_get (goals_at levels.now) (length levels.now.ops + d.0) ≡ Some g
        → result.0 ≡ name_of t.now.program g }
    ensures level { (g : Goal)
        → slice_get (goals_at levels.now) (length levels.now.ops + d.0) ≡ Some g
        → result.1 ≡ level_of g }
{
    (t.txn(d).name.word, SectionLevel::Txn(levels.txn(d)))
}
