ghost use Rattle.std.specs.Prelude.{◌≡◌, [], IfOk, OnOk, map};
ghost use Rattle.ql_base.specs.Numbering.{has_name, with_name};
ghost use Rattle.ql_typing.specs.Faults.{earlier, first_fault, repeats, names_met, where_so};
ghost use Rattle.ql_typing.specs.Programs.{above};

use crate::fault::{TypeFault, first};
use crate::limits::above_limit;
use crate::named::Named;
use crate::word_set::WordSet;
use ql_base::NoMemory;
use ql_lang::Name;
use std::alloc::Global;

/// The fault of the first item whose name is that of an earlier one.
pub(crate) fn repeat_fault<T: Named>(
    alloc: Global,
    items: &[T],
) -> Result<Option<TypeFault>, NoMemory>
    ensures { IfOk result (λ fault. fault ≡ first_fault (repeats [] (map T.named items.now))) }
{
    let mut names = WordSet::new(alloc);
    meet(&mut names, items)
}

/// The fault of the first item that is above a limit, or whose name is that of an earlier one or one of `names`.
pub(crate) fn list_fault<T: Named>(
    names: &mut WordSet,
    items: &[T],
    limit: usize,
) -> Result<Option<TypeFault>, NoMemory>
    ensures same { OnOk result (names.new ≡ names.old) }
    ensures fault { IfOk result
        (λ fault. fault ≡ earlier (first_fault (repeats names.old (map T.named items.now)))
        (first_fault (above limit (map T.placed items.now)))) }
{
    let before = names.len();
    let repeated = meet(names, items)?;
    names.truncate(before);
    Ok(first(repeated, above_limit(items, limit)))
}

/// Adds the names of items to others, and returns the fault of the first one that is there.
pub(crate) fn meet<T: Named>(
    names: &mut WordSet,
    items: &[T],
) -> Result<Option<TypeFault>, NoMemory>
    ensures names { OnOk result (names.new ≡ names_met names.old (map T.named items.now)) }
    ensures fault { IfOk result
        (λ fault. fault ≡ first_fault (repeats names.old (map T.named items.now))) }
{
    let mut fault = None;
    for item in items {
        let twice = meet_one(names, item.name())?;
        fault = first(fault, twice);
    }
    Ok(fault)
}

/// Meets one more name: it is there twice if it was met before.
#[tactic(auto, unfolding(crate::specs::Faults::first_fault, crate::specs::Faults::earlier))]
fn meet_one(names: &mut WordSet, name: &Name) -> Result<Option<TypeFault>, NoMemory>
    ensures names { OnOk result (names.new ≡ with_name names.old name.now.word) }
    ensures fault { IfOk result
        (λ fault. fault ≡ first_fault
        (where_so (has_name names.old name.now.word) (TypeFault.Twice name.now.at))) }
{
    let is_new = names.add(&name.word)?;
    Ok(if is_new {
        None
    } else {
        Some(TypeFault::Twice(name.at))
    })
}
