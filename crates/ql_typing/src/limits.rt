ghost use Rattle.std.specs.Prelude.{◌≡◌, drop, map};
ghost use Rattle.ql_typing.specs.Faults.{each, first_fault};
ghost use Rattle.ql_typing.specs.Programs.{above, too_many};

use crate::fault::{TypeFault, first};
use crate::named::Named;

/// The fault of the first item above a limit.
pub(crate) fn above_limit<T: Named>(items: &[T], limit: usize) -> Option<TypeFault>
    ensures { result ≡ first_fault (above limit (map T.placed items.now)) }
{
    extra_fault(past_limit(items, limit))
}

/// The items above a limit.
pub(crate) fn past_limit<T>(items: &[T], limit: usize) -> &[T]
    ensures { result.now ≡ drop limit items.now }
{
    &items[limit.min(items.len())..]
}

fn extra_fault<T: Named>(items: &[T]) -> Option<TypeFault>
    ensures { result ≡ first_fault (each too_many (map T.placed items.now)) }
{
    let mut fault = None;
    for item in items {
        fault = first(fault, Some(TypeFault::TooMany(item.place())));
    }
    fault
}
