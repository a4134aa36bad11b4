use ql_base::{IdSet, NoMemory, ObjId, OpId, SessId};
use ql_exec::{Draft, ExecFault, Execution, Member, Payload};
use ql_value::{Value, Values};
use std::alloc::Global;

// The most effects of an execution.
const MOST: u32 = 1_000_000;

/// The ids as a set.
pub fn id_set(alloc: Global, ids: &[u32]) -> Result<IdSet, NoMemory> {
    let mut set = IdSet::new(alloc);
    for id in ids {
        set.insert(*id)?;
    }
    Ok(set)
}

/// An effect of operation 0, without arguments and a payload, that answers unit.
pub fn draft(alloc: Global, object: u32, session: u32, member: Member, seen: IdSet) -> Draft {
    Draft {
        object: ObjId(object),
        op: OpId(0),
        args: Values::of(Vec::new(alloc)),
        payload: Payload::Nothing,
        answer: Value::Unit,
        session: SessId(session),
        member,
        seen,
    }
}

/// Appends an effect, unless there are too many or it is refused.
pub fn push(execution: &mut Execution, draft: Draft) -> Result<(), NoMemory> {
    if execution.len() >= MOST {
        return Ok(());
    }
    match execution.push(draft) {
        Err(ExecFault::NoMemory) => Err(NoMemory),
        _ => Ok(()),
    }
}
