ghost use Rattle.std.specs.Prelude.{◌≡◌, ◌+◌, ◌<◌, ◌^◌, ◌++◌, ◌∷◌, [], ℕ, cond, length, IfOk, OnOk};
ghost use Rattle.ql_base.specs.IdLists.{has_id};
ghost use Rattle.ql_exec.specs.Execution.{IsExecution, effect_of, with_stamp};
ghost use Rattle.ql_summary.specs.Keeping.{is_kept};
ghost use Rattle.ql_summary.specs.Slimming.{bare, slim_of};

use crate::kept::Kept;
use ql_base::{IdSet, NoMemory};
use ql_exec::{Draft, Effect, ExecFault, Execution, Payload, copy_payload, copy_values};
use ql_value::{Value, Values, copy};
use std::alloc::Global;

/// An execution in which the kept effects have lost their arguments, payload and answer.
pub fn slim(alloc: Global, x: &Execution, kept: &Kept) -> Result<Execution, NoMemory>
    ensures { IfOk result (λ small. small ≡ slim_of kept.now x.now) }
{
    let ids = all_ids(alloc, kept)?;
    let mut small = Execution::new(alloc);
    let effects = x.effects();
    for k in 0..effects.len() {
        let draft = draft_of(alloc, &effects[k], ids.has(k as u32 + 1))?;
        put(&mut small, draft)?;
    }
    Ok(small)
}

// The ids that are kept, of whatever object.
fn all_ids(alloc: Global, kept: &Kept) -> Result<IdSet, NoMemory>
    ensures { IfOk result (λ ids. (a : ℕ) → has_id ids a ≡ is_kept kept.now a) }
{
    let mut ids = IdSet::new(alloc);
    for one in kept.objects() {
        ids = ids.union(&one.ids)?;
    }
    Ok(ids)
}

// An effect that isn't in an execution yet, with its contents or without them.
fn draft_of(alloc: Global, effect: &Effect, is_kept: bool) -> Result<Draft, NoMemory>
    ensures { IfOk result
        (λ draft. with_stamp draft effect.now.stamp ≡ cond is_kept (bare effect.now) effect.now) }
{
    let (args, payload, answer) = if is_kept {
        (Values::of(Vec::new(alloc)), Payload::Nothing, Value::Unit)
    } else {
        (
            copy_values(alloc, &effect.args)?,
            copy_payload(alloc, &effect.payload)?,
            copy(alloc, &effect.answer)?,
        )
    };
    Ok(Draft {
        object: effect.object,
        op: effect.op,
        args,
        payload,
        answer,
        session: effect.session,
        member: effect.member,
        seen: effect.seen.copy()?,
    })
}

// Appends an effect that an execution can have next.
fn put(x: &mut Execution, draft: Draft) -> Result<(), NoMemory>
    requires room { length x.old + 1 < 2 ^ 32 }
    requires next { IsExecution (x.old ++ effect_of x.old draft ∷ []) }
    ensures { OnOk result (x.new ≡ x.old ++ effect_of x.old draft ∷ []) }
{
    match x.push(draft) {
        Ok(_) => Ok(()),
        Err(ExecFault::NoMemory) => Err(NoMemory),
        Err(_) => unreachable!(),
    }
}
