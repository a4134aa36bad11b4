ghost use Rattle.std.specs.Prelude.{◌<◌, ◌≤◌, ◌^◌, length, IfOk};
ghost use Rattle.ql_generated.specs.Schedules.{GenSays};

use ql_base::NoMemory;
use ql_commands::{bad_source, read_source};
use ql_gen::schedule_of;
use ql_reply::{Cause, Reply, Status};
use ql_schedule::print_schedule;
use std::alloc::Global;

/// The schedule of a number, with this number of events, of a source's program; or the first fault of the source.
pub fn generate(alloc: Global, source: &[u8], number: u32, events: u32) -> Result<Reply, NoMemory>
    requires source { length source.now < 2 ^ 32 }
    requires number { number < 2 ^ 31 }
    requires few { events ≤ 4000 }
    ensures { IfOk result (λ reply. GenSays source.now number events reply.status reply.text.items) }
{
    let typed = match read_source(alloc, source) {
        Ok(typed) => typed,
        Err(fault) => return bad_source(alloc, fault),
    };
    let schedule = schedule_of(alloc, &typed, number, events)?;
    Ok(Reply {
        status: Status::Done,
        text: print_schedule(alloc, &typed, &schedule)?,
        cause: Cause::Text,
    })
}
