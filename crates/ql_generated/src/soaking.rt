ghost use Rattle.std.specs.Prelude.{◌<◌, ◌^◌, ℕ, List, length, IfOk};
ghost use Rattle.ql_classify.specs.Least.{AreLevelsOf};
ghost use Rattle.ql_commands.specs.Sources.{IsSourceOf};
ghost use Rattle.ql_generated.specs.Soaks.{SoakSays, ReportsSoak};

use crate::summary::{EVENTS, print_summary};
use ql_base::NoMemory;
use ql_commands::{bad_source, read_source, refusal};
use ql_gen::schedule_of;
use ql_levels::Levels;
use ql_reply::{Cause, Reply, Status};
use ql_running::sound_run;
use ql_typing::Typed;
use std::alloc::Global;

/// The summary of the run of 4000 generated events, through a store of a source's program at the least levels; or what is
/// wrong first: a fault of the source, or why the program has no such levels.
pub fn soak(alloc: Global, source: &[u8], number: u32) -> Result<Reply, NoMemory>
    requires source { length source.now < 2 ^ 32 }
    requires number { number < 2 ^ 31 }
    ensures { IfOk result (λ reply. SoakSays source.now number reply.status reply.text.items) }
{
    let typed = match read_source(alloc, source) {
        Ok(typed) => typed,
        Err(fault) => return bad_source(alloc, fault),
    };
    match ql_classify::classify(alloc, &typed) {
        Ok(classified) => Ok(Reply {
            status: Status::Done,
            text: summary_of_run(alloc, &typed, classified.levels(), number)?,
            cause: Cause::Text,
        }),
        Err(why) => refusal(alloc, &typed, why),
    }
}

// The summary of the run of a number's schedule at these levels.
fn summary_of_run(
    alloc: Global,
    t: &Typed,
    levels: &Levels,
    number: u32,
) -> Result<Vec<u8>, NoMemory>
    requires levels { AreLevelsOf t.now.program levels.now }
    requires number { number < 2 ^ 31 }
    ensures { IfOk result
        (λ text. (source : List ℕ) → IsSourceOf source t.now.program
        → ReportsSoak source number text.items) }
{
    let schedule = schedule_of(alloc, t, number, EVENTS)?;
    let run = sound_run(alloc, t, levels, schedule)?;
    print_summary(alloc, run.replies.as_slice(), run.store.execution())
}
