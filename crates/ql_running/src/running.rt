ghost use Rattle.std.specs.Prelude.{◌≡◌, ◌<◌, ◌^◌, ℕ, List, length, IfOk};
ghost use Rattle.ql_commands.specs.Sources.{IsSourceOf};
ghost use Rattle.ql_classify.specs.Least.{AreLevelsOf};
ghost use Rattle.ql_lines.specs.Lines.{ahead_from};
ghost use Rattle.ql_schedule.specs.Files.{IsScheduleFile};
ghost use Rattle.ql_schedule.specs.Guarantees.{IsSchedule};
ghost use Rattle.ql_report.specs.EffectTexts.{AreNamed};
ghost use Rattle.ql_report.specs.ReplyTexts.{AreAnswered};
ghost use Rattle.ql_typing.specs.Operations.{all_ops};
ghost use Rattle.ql_running.specs.Forms.{format_of};
ghost use Rattle.ql_running.specs.Runs.{RunSays, ReportsRun};

use crate::form::Form;
use crate::input::{RunInput, read_run_input};
use crate::store_run::sound_run;
use ql_base::{Names, NoMemory};
use ql_exec::Execution;
use ql_levels::Levels;
use ql_reply::{Cause, Reply, Status};
use ql_report::{json_run, print_run};
use ql_typing::Typed;
use std::alloc::Global;

/// The run of a schedule through a store of a source's program at the least levels, or what is wrong first: a fault of
/// the source, one of the schedule, or why the program has no such levels.
pub fn run(alloc: Global, form: Form, source: &[u8], schedule: &[u8]) -> Result<Reply, NoMemory>
    requires { length source.now < 2 ^ 32 }
    ensures { IfOk result
        (λ reply. RunSays (format_of form) source.now schedule.now reply.status reply.text.items) }
{
    match read_run_input(alloc, source, schedule)? {
        Ok(input) => Ok(Reply {
            status: Status::Done,
            text: text_of(alloc, form, input)?,
            cause: Cause::Text,
        }),
        Err(reply) => Ok(reply),
    }
}

// The text of the run, which shows it to whoever reads the program and the schedule in two files.
fn text_of(alloc: Global, form: Form, input: RunInput) -> Result<Vec<u8>, NoMemory>
    requires levels { AreLevelsOf input.typed.program input.levels }
    requires schedule { IsSchedule input.typed.program input.schedule }
    ensures { IfOk result
        (λ text. (source file : List ℕ) → IsSourceOf source input.typed.program
        → IsScheduleFile input.typed.program (ahead_from 1 file) input.schedule
        → ReportsRun (format_of form) source file text.items) }
{
    let RunInput {
        typed,
        levels,
        schedule,
    } = input;
    let run = sound_run(alloc, &typed, &levels, schedule)?;
    print_in(
        alloc,
        form,
        &typed,
        &run.objects,
        &levels,
        &run.replies,
        run.store.execution(),
    )
}

fn print_in(
    alloc: Global,
    form: Form,
    t: &Typed,
    objects: &Names,
    levels: &Levels,
    replies: &Vec<ql_machine::Reply>,
    x: &Execution,
) -> Result<Vec<u8>, NoMemory>
    requires ops { length levels.now.ops ≡ length (all_ops t.now.program.types) }
    requires txns { length levels.now.txns ≡ length t.now.program.txns }
    requires named { AreNamed t.now.program (length objects.now) x.now }
    requires answered { AreAnswered x.now replies.now.items }
    ensures { IfOk result
        (λ text. format_of form t.now.program objects.now levels.now replies.now.items x.now
        text.items) }
{
    match form {
        Form::Text => print_run(alloc, t, objects, levels, replies, x),
        Form::Json => json_run(alloc, t, objects, levels, replies, x),
    }
}
