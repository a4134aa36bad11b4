ghost use Rattle.std.specs.Prelude.{◌≡◌, ◌<◌, ◌^◌, length, IfErr, IfOk};
ghost use Rattle.ql_classify.specs.Least.{AreLevelsOf};
ghost use Rattle.ql_commands.specs.Levels.{RefusalSays};
ghost use Rattle.ql_commands.specs.Sources.{IsSourceOf};
ghost use Rattle.ql_lines.specs.Lines.{ahead_from};
ghost use Rattle.ql_reply.specs.declared.status.Status.TheVariants.{No};
ghost use Rattle.ql_running.specs.Runs.{NoRunSays};
ghost use Rattle.ql_schedule.specs.Files.{IsScheduleFile};
ghost use Rattle.ql_schedule.specs.Guarantees.{IsSchedule};

use crate::schedule_fault::bad_schedule;
use ql_base::NoMemory;
use ql_commands::{bad_source, read_source, refusal};
use ql_levels::Levels;
use ql_parse::one_program_answer;
use ql_reply::Reply;
use ql_schedule::{Schedule, one_schedule, parse_schedule};
use ql_typing::Typed;
use std::alloc::Global;

/// What a run starts from: a program, its least levels, and a schedule of it.
#[derive(Drop)]
pub struct RunInput {
    pub typed: Typed,
    pub levels: Levels,
    pub schedule: Schedule,
}

/// Reads a source and a schedule of its program, and finds the program's least levels. The inner error is the reply on what is
/// wrong first: a fault of the source, one of the schedule, or why the program has no such levels.
pub fn read_run_input(
    alloc: Global,
    source: &[u8],
    schedule: &[u8],
) -> Result<Result<RunInput, Reply>, NoMemory>
    requires { length source.now < 2 ^ 32 }
    ensures source { IfOk result
        (λ read. IfOk read (λ input. IsSourceOf source.now input.typed.program)) }
    ensures schedule { IfOk result
        (λ read. IfOk read (λ input. IsScheduleFile input.typed.program (ahead_from 1 schedule.now)
        input.schedule)) }
    ensures guarantees { IfOk result
        (λ read. IfOk read (λ input. IsSchedule input.typed.program input.schedule)) }
    ensures levels { IfOk result
        (λ read. IfOk read (λ input. AreLevelsOf input.typed.program input.levels)) }
    ensures refused { IfOk result
        (λ read. IfErr read (λ reply. NoRunSays source.now schedule.now reply.status reply.text.items)) }
{
    one_schedule();
    one_program_answer();
    let typed = match read_source(alloc, source) {
        Ok(typed) => typed,
        Err(fault) => return Ok(Err(bad_source(alloc, fault)?)),
    };
    let schedule = match parse_schedule(alloc, &typed, schedule) {
        Ok(schedule) => schedule,
        Err(fault) => return Ok(Err(bad_schedule(alloc, fault)?)),
    };
    match least_levels(alloc, &typed)? {
        Ok(levels) => Ok(Ok(RunInput {
            typed,
            levels,
            schedule,
        })),
        Err(reply) => Ok(Err(reply)),
    }
}

// The least levels of a program, or the answer that says why it has none.
fn least_levels(alloc: Global, t: &Typed) -> Result<Result<Levels, Reply>, NoMemory>
    ensures levels { IfOk result (λ found. IfOk found (AreLevelsOf t.now.program)) }
    ensures refused { IfOk result
        (λ found. IfErr found (λ reply. RefusalSays t.now.program reply.text.items)) }
    ensures status { IfOk result (λ found. IfErr found (λ reply. reply.status ≡ No)) }
{
    match ql_classify::classify(alloc, t) {
        Ok(classified) => Ok(Ok(classified.levels().copy(alloc)?)),
        Err(why) => Ok(Err(refusal(alloc, t, why)?)),
    }
}
