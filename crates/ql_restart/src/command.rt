ghost use Rattle.std.specs.Prelude.{◌≡◌, ◌<◌, ◌^◌, ◌++◌, ℕ, List, codes, decimal, length, IfOk};
ghost use Rattle.ql_classify.specs.Least.{AreLevelsOf};
ghost use Rattle.ql_commands.specs.Sources.{IsSourceOf};
ghost use Rattle.ql_lines.specs.Lines.{ahead_from};
ghost use Rattle.ql_machine.specs.Runs.{replicas_at_end};
ghost use Rattle.ql_schedule.specs.Files.{IsScheduleFile};
ghost use Rattle.ql_schedule.specs.Guarantees.{IsSchedule};
ghost use Rattle.ql_restart.specs.Restarts.{RestartSays, ReportsRestart};

use crate::recovered::print_recovered;
use ql_base::{NoMemory, ReplicaId, push_bytes, push_number};
use ql_replica::Replica;
use ql_reply::{Cause, Reply, Status};
use ql_running::{RunInput, read_run_input};
use ql_runs::watched_run;
use std::alloc::Global;

/// What a replica has after a run of a schedule at the least levels of a source's program, when it journals all that it
/// receives on a disk that stops at the call of number `cut`, and is recovered; or what is wrong first: a fault of the source,
/// one of the schedule, why the program has no such levels, or that the replica isn't there at its end.
pub fn restart_run(
    alloc: Global,
    source: &[u8],
    schedule: &[u8],
    replica: u32,
    cut: u64,
) -> Result<Reply, NoMemory>
    requires { length source.now < 2 ^ 32 }
    ensures { IfOk result
        (λ reply. RestartSays source.now schedule.now replica cut reply.status reply.text.items) }
{
    let input = match read_run_input(alloc, source, schedule)? {
        Ok(input) => input,
        Err(reply) => return Ok(reply),
    };
    let replicas = input.schedule.last_replicas();
    if replica >= replicas {
        return Ok(Reply {
            status: Status::No,
            text: no_replica(alloc, replica)?,
            cause: Cause::Text,
        });
    }
    let text = text_of(alloc, input, ReplicaId(replica), cut)?;
    Ok(Reply {
        status: Status::Done,
        text,
        cause: Cause::Text,
    })
}

// The text for a replica.
fn text_of(
    alloc: Global,
    input: RunInput,
    replica: ReplicaId,
    cut: u64,
) -> Result<Vec<u8>, NoMemory>
    requires levels { AreLevelsOf input.typed.program input.levels }
    requires schedule { IsSchedule input.typed.program input.schedule }
    requires replica { replica.0 < replicas_at_end input.schedule.replicas input.schedule.events }
    ensures { IfOk result
        (λ text. (source file : List ℕ) → IsSourceOf source input.typed.program
        → IsScheduleFile input.typed.program (ahead_from 1 file) input.schedule
        → ReportsRestart source file replica.0 cut text.items) }
{
    let RunInput {
        typed,
        levels,
        schedule,
    } = input;
    let run = watched_run::<Replica>(alloc, &typed, levels, schedule, replica)?;
    print_recovered(alloc, &run.store, &run.arrivals, cut)
}

fn no_replica(alloc: Global, replica: u32) -> Result<Vec<u8>, NoMemory>
    ensures { IfOk result
        (λ text. text.items ≡ codes "no replica " ++ decimal replica ++ codes "\n") }
{
    let mut text = Vec::from_slice(alloc, b"no replica ")?;
    push_number(&mut text, replica)?;
    push_bytes(&mut text, b"\n")?;
    Ok(text)
}
