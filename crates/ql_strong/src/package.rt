ghost use Rattle.std.specs.Prelude.{◌≡◌, ◌+◌, ◌^◌, ◌<◌, ◌≤◌, true, length, IfOk};
ghost use Rattle.ql_exec.specs.Relations.{inside, sametxn};
ghost use Rattle.ql_machine.specs.Sets.{AreThose};

use ql_base::{EffId, IdSet, NoMemory, RunId};
use ql_exec::{Effect, Execution, Member};
use std::alloc::Global;

/// All effects of the transaction of an effect. An effect outside any is a transaction by itself, and
/// takes constant time; otherwise each effect of the execution is looked at once.
pub fn package_of(alloc: Global, x: &Execution, id: EffId) -> Result<IdSet, NoMemory>
    requires first { 1 ≤ id.0 }
    requires last { id.0 ≤ length x.now }
    ensures { IfOk result (AreThose (λ a. sametxn x.now id.0 a ≡ true)) }
{
    match x.get(id).member {
        Member::Alone => only(alloc, id),
        Member::Inside(run, _) => members(alloc, x.effects(), run),
    }
}

fn only(alloc: Global, id: EffId) -> Result<IdSet, NoMemory>
    ensures { IfOk result (AreThose (λ a. id.0 ≡ a)) }
{
    let mut ids = IdSet::new(alloc);
    ids.insert(id.0)?;
    Ok(ids)
}

fn members(alloc: Global, effects: &[Effect], run: RunId) -> Result<IdSet, NoMemory>
    requires { length effects.now < 2 ^ 32 }
    ensures { IfOk result (AreThose (λ a. inside effects.now run.0 a ≡ true)) }
{
    let mut ids = IdSet::new(alloc);
    for (k, effect) in effects.iter().enumerate() {
        if effect.member.is_in(run) {
            ids.insert(k as u32 + 1)?;
        }
    }
    Ok(ids)
}
