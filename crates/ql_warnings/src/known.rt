// The named relations that a statement states, and which of them imply others.
ghost use Rattle.std.specs.Prelude.{◌≡◌, OnOk, true};
ghost use Rattle.ql_lang.specs.Formulas.{statement_of};
ghost use Rattle.ql_warnings.specs.Names.{is_on_object, is_order, is_symmetric, is_within};
ghost use Rattle.ql_warnings.specs.Known.{Entails, PartsKept};

use ql_base::NoMemory;
use ql_lang::{Body, Rel, RelName, Term};

/// A relation of two effects, with the offset of its name in the source.
#[derive(Clone, Copy, PartialEq, Eq)]
pub(crate) struct Known {
    pub(crate) name: RelName,
    pub(crate) at: u32,
    pub(crate) first: Term,
    pub(crate) second: Term,
}

/// Appends the parts of a statement that are named relations. Other parts are left out.
pub(crate) fn push_known(known: &mut Vec<Known>, body: &Body) -> Result<(), NoMemory>
    ensures { OnOk result (PartsKept (statement_of body.now) known.old.items known.new.items) }
{
    match body {
        Body::And(left, right) => {
            push_known(known, left)?;
            push_known(known, right)
        }
        Body::Apply(Rel::Base(name, at), first, second) => {
            known.push(Known {
                name: *name,
                at: *at,
                first: *first,
                second: *second,
            })?;
            Ok(())
        }
        _ => Ok(()),
    }
}

/// Whether a relation holds wherever another one does.
pub(crate) fn gives(known: Known, wanted: Known) -> bool
    ensures { result ≡ true → Entails known wanted }
{
    if !is_within(known.name, wanted.name) {
        return false;
    }
    if is_same_way(known, wanted) {
        return true;
    }
    if !is_symmetric(wanted.name) {
        return false;
    }
    is_turned(known, wanted)
}

/// Whether two relations have the same effects in the same order.
fn is_same_way(known: Known, wanted: Known) -> bool
    ensures { result ≡ true → (known.first ≡ wanted.first) × (known.second ≡ wanted.second) }
{
    known.first == wanted.first && known.second == wanted.second
}

/// Whether two relations have the same effects in opposite order.
pub(crate) fn is_turned(known: Known, wanted: Known) -> bool
    ensures { result ≡ true → (known.first ≡ wanted.second) × (known.second ≡ wanted.first) }
{
    known.first == wanted.second && known.second == wanted.first
}

fn is_within(name: RelName, wanted: RelName) -> bool
    ensures { result ≡ is_within name wanted }
{
    match (name, wanted) {
        (RelName::Vis, RelName::Vis | RelName::SameObj | RelName::Hb | RelName::Hbo)
        | (RelName::So, RelName::So | RelName::Hb)
        | (RelName::Soo, RelName::So | RelName::Soo | RelName::SameObj | RelName::Hb | RelName::Hbo)
        | (RelName::SameObj, RelName::SameObj)
        | (RelName::Eq, RelName::Eq)
        | (RelName::Hb, RelName::Hb)
        | (RelName::Hbo, RelName::SameObj | RelName::Hb | RelName::Hbo) => true,
        _ => false,
    }
}

/// Whether a relation implies that its first effect is earlier than its second.
pub(crate) fn is_order(name: RelName) -> bool
    ensures { result ≡ is_order name }
{
    match name {
        RelName::Vis | RelName::So | RelName::Soo | RelName::Hb | RelName::Hbo => true,
        RelName::SameObj | RelName::Eq => false,
    }
}

/// Whether a relation implies that both effects are on one object.
pub(crate) fn is_on_object(name: RelName) -> bool
    ensures { result ≡ is_on_object name }
{
    match name {
        RelName::Vis | RelName::Soo | RelName::SameObj | RelName::Hbo => true,
        RelName::So | RelName::Eq | RelName::Hb => false,
    }
}

fn is_symmetric(name: RelName) -> bool
    ensures { result ≡ is_symmetric name }
{
    match name {
        RelName::SameObj | RelName::Eq => true,
        RelName::Vis | RelName::So | RelName::Soo | RelName::Hb | RelName::Hbo => false,
    }
}
