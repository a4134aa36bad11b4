ghost use Rattle.std.specs.Prelude.{◌≡◌, IfOk, MatchOption, true, false, [], is_none};
ghost use Rattle.std.specs.List.{list_any};
ghost use Rattle.ql_base.specs.Numbering.{place};
ghost use Rattle.ql_schedule.specs.Known.{AreNumbers};
ghost use Rattle.ql_schedule.specs.Makings.{declared_from};

use crate::event_line::EventLine;
use crate::schedule::Schedule;
use ql_base::{DeclId, IdSet, NoMemory, OpId, Word};
use ql_typing::Typed;
use std::alloc::Global;

/// The numbers of the names in an event's line, if they are known. Names that a line of its kind doesn't
/// have are none.
#[derive(Drop)]
pub(crate) struct Known {
    pub object: Option<u32>,
    pub op: Option<OpId>,
    pub decl: Option<DeclId>,
    pub objects: Option<IdSet>,
}

/// Looks up the names of a line.
pub(crate) fn look_up(
    alloc: Global,
    t: &Typed,
    so_far: &Schedule,
    line: &EventLine,
) -> Result<Known, NoMemory>
    ensures { IfOk result (AreNumbers t.now.program so_far.now line.now) }
{
    match line {
        EventLine::Call { object, op, .. } => Ok(Known {
            object: so_far.objects.find(object.bytes()),
            op: t.op_named(op.bytes()),
            decl: None,
            objects: None,
        }),
        EventLine::Begin { txn, objects, .. } => Ok(Known {
            object: None,
            op: None,
            decl: t.txn_named(txn.bytes()),
            objects: declared(alloc, so_far, objects.items())?,
        }),
        _ => Ok(Known {
            object: None,
            op: None,
            decl: None,
            objects: None,
        }),
    }
}

#[tactic(auto, unfolding(crate::specs::Makings::declared_from))]
// The numbers of objects, if all of them are declared.
fn declared(alloc: Global, so_far: &Schedule, names: &[Word]) -> Result<Option<IdSet>, NoMemory>
    ensures { IfOk result
        (λ ids. MatchOption ids
        (list_any (λ w. is_none (place so_far.now.objects w)) names.now ≡ true)
        (λ ids. (list_any (λ w. is_none (place so_far.now.objects w)) names.now ≡ false)
        × (ids ≡ declared_from so_far.now.objects [] names.now))) }
{
    let mut ids = IdSet::new(alloc);
    for name in names {
        let Some(id) = so_far.objects.find(name.bytes()) else {
            return Ok(None);
        };
        ids.insert(id)?;
    }
    Ok(Some(ids))
}
