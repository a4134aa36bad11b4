ghost use Rattle.std.specs.Prelude.{◌<◌, ◌^◌, length, IfOk};
ghost use Rattle.ql_commands.specs.Classify.{ClassifySays};

use crate::refusals::refusal;
use crate::source::read_source;
use crate::source_fault::bad_source;
use ql_base::NoMemory;
use ql_reply::{Cause, Reply, Status};
use ql_report::print_levels;
use std::alloc::Global;

/// The least levels of a source's operations and transactions, or what fails first.
pub fn classify(alloc: Global, source: &[u8]) -> Result<Reply, NoMemory>
    requires { length source.now < 2 ^ 32 }
    ensures { IfOk result (λ reply. ClassifySays source.now reply.status reply.text.items) }
{
    let typed = match read_source(alloc, source) {
        Ok(typed) => typed,
        Err(fault) => return bad_source(alloc, fault),
    };
    match ql_classify::classify(alloc, &typed) {
        Ok(classified) => Ok(Reply {
            status: Status::Done,
            text: print_levels(alloc, &typed, classified.levels())?,
            cause: Cause::Text,
        }),
        Err(why) => refusal(alloc, &typed, why),
    }
}
