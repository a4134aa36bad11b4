ghost use Rattle.std.specs.Prelude.{◌≡◌, ◌<◌, ◌^◌, ◌++◌, ℕ, All, List, length, IfOk, OnOk};
ghost use Rattle.ql_classify.specs.Least.{AreLevelsOf};
ghost use Rattle.ql_commands.specs.Sources.{IsSourceOf};
ghost use Rattle.ql_lines.specs.Lines.{ahead_from};
ghost use Rattle.ql_schedule.specs.Files.{IsScheduleFile};
ghost use Rattle.ql_schedule.specs.Guarantees.{IsSchedule};
ghost use Rattle.ql_slimming.specs.Answers.{IsSlimText, kept_line};
ghost use Rattle.ql_runs.specs.Keeping.{FitsSchedule};
ghost use Rattle.ql_slimming.specs.Slims.{SlimSays, ReportsSlim};

use crate::answers::{Left, push_answers};
use crate::keeping::{keep_stable, kept_effects};
use ql_base::{NoMemory, TypeId, push_bytes, push_number};
use ql_replica::Replica;
use ql_reply::{Cause, Reply, Status};
use ql_running::{RunInput, read_run_input, sound_run};
use ql_runs::Run;
use ql_summary::slim;
use ql_typing::Typed;
use std::alloc::Global;

/// What is stable after the run of a schedule through a store of a source's program at the least levels, and what each
/// replica answers, from what is left of the execution when the stable effects are kept; or what is wrong first: a fault of
/// the source, one of the schedule, or why the program has no such levels.
pub fn slim_run(alloc: Global, source: &[u8], schedule: &[u8]) -> Result<Reply, NoMemory>
    requires { length source.now < 2 ^ 32 }
    ensures { IfOk result (λ reply. SlimSays source.now schedule.now reply.status reply.text.items) }
{
    match read_run_input(alloc, source, schedule)? {
        Ok(input) => Ok(Reply {
            status: Status::Done,
            text: text_of(alloc, input)?,
            cause: Cause::Text,
        }),
        Err(reply) => Ok(reply),
    }
}

// The text of the run's last state.
fn text_of(alloc: Global, input: RunInput) -> Result<Vec<u8>, NoMemory>
    requires levels { AreLevelsOf input.typed.program input.levels }
    requires schedule { IsSchedule input.typed.program input.schedule }
    ensures { IfOk result
        (λ text. (source file : List ℕ) → IsSourceOf source input.typed.program
        → IsScheduleFile input.typed.program (ahead_from 1 file) input.schedule
        → ReportsSlim source file text.items) }
{
    let RunInput {
        typed,
        levels,
        schedule,
    } = input;
    let replicas = schedule.last_replicas();
    let kinds = Vec::from_slice(alloc, schedule.kinds.items())?;
    let run = sound_run(alloc, &typed, &levels, schedule)?;
    print_slim(alloc, &typed, &run, replicas, &kinds)
}

// How many effects of a run's last state are stable, and what each replica answers.
fn print_slim(
    alloc: Global,
    t: &Typed,
    run: &Run<Replica>,
    replicas: u32,
    kinds: &[TypeId],
) -> Result<Vec<u8>, NoMemory>
    requires replicas { length run.now.store.machine.received ≡ replicas }
    requires few { length kinds.now < 2 ^ 32 }
    requires typed { length kinds.now ≡ length run.now.objects }
    requires fits { All (FitsSchedule t.now.program (length run.now.objects) kinds.now)
        run.now.store.machine.effects }
    ensures { IfOk result
        (λ text. IsSlimText t.now.program run.now.objects kinds.now run.now.store.machine
        text.items) }
{
    let x = run.store.execution();
    let kept = keep_stable(alloc, t, &run.store, replicas, kinds)?;
    let stable = kept_effects(alloc, x, &kept)?;
    let small = slim(alloc, x, &kept)?;
    let mut text = Vec::new(alloc);
    push_kept(&mut text, stable.len(), x.len())?;
    let left = Left {
        t,
        objects: &run.objects,
        kinds,
        replicas,
        store: &run.store,
        kept: &kept,
        small: &small,
    };
    push_answers(alloc, &mut text, &left)?;
    push_bytes(&mut text, b"end\n")?;
    Ok(text)
}

fn push_kept(out: &mut Vec<u8>, kept: usize, all: u32) -> Result<(), NoMemory>
    ensures { OnOk result (out.new.items ≡ out.old.items ++ kept_line kept all) }
{
    push_bytes(out, b"kept ")?;
    push_number(out, kept as u64)?;
    push_bytes(out, b" of ")?;
    push_number(out, all)?;
    push_bytes(out, b"\n")
}
