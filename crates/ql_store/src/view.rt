ghost use Rattle.std.specs.Prelude.{◌≡◌, IfOk};
ghost use Rattle.ql_exec.specs.Effects.{effect_at};
ghost use Rattle.ql_exec.specs.Execution.{IsOn};
ghost use Rattle.ql_holder.specs.Arrivals.{Applied};
ghost use Rattle.ql_machine.specs.Sets.{AreThose};
ghost use Rattle.ql_session.specs.Executions.{notes_of};
ghost use Rattle.ql_store.specs.Viewing.{IsLeastLacking};

use ql_base::{EffId, IdSet, NoMemory, ObjId, SessId};
use ql_exec::Execution;
use ql_holder::Holder;
use ql_levels::Level;
use ql_session::Sessions;
use ql_shim::{View, applied_among};
use std::alloc::Global;

/// What a call outside any transaction and below strong sees on an object, at the replica of a holder,
/// and the least effect that it misses. Looks up each effect on the object once, and at wide goes through
/// the execution once more.
pub(crate) fn plain_view<H: Holder>(
    alloc: Global,
    x: &Execution,
    holder: &H,
    sessions: &Sessions,
    level: Level,
    session: SessId,
    object: ObjId,
) -> Result<View, NoMemory>
    requires { sessions.now ≡ notes_of x.now }
    ensures ids { IfOk result (λ view. H.fits holder.now x.now
        → AreThose (λ a. IsOn object (effect_at x.now a) × Applied x.now (H.received holder.now) a)
        view.ids) }
    ensures missing { IfOk result
        (λ view. IsLeastLacking x.now level session object view.ids view.missing) }
{
    let ids = applied_among(alloc, holder, sessions.on(object))?;
    let missing = least_lacking(x, sessions, level, session, object, &ids)?;
    Ok(View { ids, missing })
}

/// The least effect that a view lacks by the level of an operation.
pub(crate) fn least_lacking(
    x: &Execution,
    sessions: &Sessions,
    level: Level,
    session: SessId,
    object: ObjId,
    view: &IdSet,
) -> Result<Option<EffId>, NoMemory>
    requires { sessions.now ≡ notes_of x.now }
    ensures { IfOk result (IsLeastLacking x.now level session object view.now) }
{
    match level {
        Level::Eventual => Ok(None),
        Level::Causal => Ok(sessions.least_missing(session, object, view)),
        Level::Wide => sessions.least_missing_wide(session, object, view, x),
        Level::Strong => Ok(None),
    }
}
