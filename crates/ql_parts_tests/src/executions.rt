use ql_base::{DeclId, IdSet, NoMemory, RunId};
use ql_exec::{Execution, Member};
use ql_test_inputs::{draft, number, push};
use std::alloc::Global;

/// The execution of effects that are spelled one after another, with semicolons between them: each an
/// object, a session, a begun transaction or 0 for none, and the ids that it sees.
pub(crate) fn execution_of(alloc: Global, effects: &str) -> Result<Execution, NoMemory> {
    let mut execution = Execution::new(alloc);
    for effect in effects.split("; ") {
        let object = number(effect, 0);
        let session = number(effect, 1);
        let member = member(number(effect, 2));
        push(
            &mut execution,
            draft(alloc, object, session, member, seen(alloc, effect)?),
        )?;
    }
    Ok(execution)
}

fn seen(alloc: Global, effect: &str) -> Result<IdSet, NoMemory> {
    let mut seen = IdSet::new(alloc);
    for id in ids_seen(effect).split_whitespace() {
        seen.insert(number(id, 0))?;
    }
    Ok(seen)
}

fn ids_seen(effect: &str) -> &str {
    match effect.split_once(" sees ") {
        Some((_, ids)) => ids,
        None => "",
    }
}

/// The membership in a begun transaction, or none for 0.
pub(crate) fn member(run: u32) -> Member {
    if run == 0 {
        Member::Alone
    } else {
        Member::Inside(RunId(run), DeclId(0))
    }
}
