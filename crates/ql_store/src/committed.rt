ghost use Rattle.std.specs.Prelude.{◌≡◌, ◌^◌, ◌<◌, true, length, IfOk};
ghost use Rattle.ql_machine.specs.Sets.{AreThose};
ghost use Rattle.ql_machine.specs.State.{committed, is_done, open_of};
ghost use Rattle.ql_shim.specs.Transactions.{open_txns};

use ql_base::{IdSet, NoMemory};
use ql_exec::{Effect, Member};
use ql_shim::Shim;
use std::alloc::Global;

/// The committed effects. Goes over the execution once, and for an effect in a transaction over the open
/// transactions.
pub(crate) fn committed_effects(
    alloc: Global,
    effects: &[Effect],
    shim: &Shim,
) -> Result<IdSet, NoMemory>
    requires { length effects.now < 2 ^ 32 }
    ensures { IfOk result (AreThose (λ a. committed effects.now (open_txns shim.now) a ≡ true)) }
{
    let mut ids = IdSet::new(alloc);
    for (k, effect) in effects.iter().enumerate() {
        if is_committed(effect, shim) {
            ids.insert(k as u32 + 1)?;
        }
    }
    Ok(ids)
}

// The effect is outside any transaction, or its session doesn't have its transaction open.
fn is_committed(effect: &Effect, shim: &Shim) -> bool
    ensures { result ≡ is_done (open_of (open_txns shim.now) effect.now.session) effect.now.member }
{
    match effect.member {
        Member::Alone => true,
        Member::Inside(run, _) => match shim.run_of(effect.session) {
            None => true,
            Some((open, _)) => open.0 != run.0,
        },
    }
}
