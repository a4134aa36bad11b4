ghost use Rattle.std.specs.Prelude.{◌<◌, ◌^◌, length, IfOk};
ghost use Rattle.ql_why.specs.Why.{WhySays};

use crate::refusal::refused_with_reason;
use crate::targets::levels_with_reasons;
use ql_base::NoMemory;
use ql_commands::{bad_source, read_source};
use ql_reply::{Cause, Reply, Status};
use std::alloc::Global;

/// The least levels of a source's operations and transactions, or what fails first. After each target's line stands a
/// countermodel for each lower level; where no level is enough for a target, one for the highest ends the text.
pub fn classify_with_reasons(alloc: Global, source: &[u8]) -> Result<Reply, NoMemory>
    requires { length source.now < 2 ^ 32 }
    ensures { IfOk result (λ reply. WhySays source.now reply.status reply.text.items) }
{
    let typed = match read_source(alloc, source) {
        Ok(typed) => typed,
        Err(fault) => return bad_source(alloc, fault),
    };
    match ql_classify::classify(alloc, &typed) {
        Ok(classified) => Ok(Reply {
            status: Status::Done,
            text: levels_with_reasons(alloc, &classified)?,
            cause: Cause::Text,
        }),
        Err(why) => refused_with_reason(alloc, &typed, why),
    }
}
