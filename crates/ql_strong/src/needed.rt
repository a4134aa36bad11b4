ghost use Rattle.std.specs.Prelude.{IfOk};
ghost use Rattle.ql_machine.specs.Sets.{AreThose};
ghost use Rattle.ql_holder.specs.Needs.{AreWhole, IsNeeded};

use crate::synced::made_whole;
use ql_base::{IdSet, NoMemory};
use ql_exec::Execution;
use ql_holder::Holder;
use ql_ranges::{Ranges, reach};
use std::alloc::Global;

/// A holder that has received exactly some effects and all that they need, directly or through others.
///
/// Takes the time of the search for what they need, and of a receipt of each transaction found.
pub fn bare<H: Holder>(alloc: Global, x: &Execution, strong: &IdSet) -> Result<H, NoMemory>
    requires { AreWhole x.now strong.now }
    ensures fits { IfOk result (λ bare. H.fits bare x.now) }
    ensures received { IfOk result
        (λ bare. AreThose (IsNeeded x.now strong.now) (H.received bare)) }
{
    let needed = reach(alloc, x, strong, &Ranges::new(alloc))?;
    made_whole(alloc, &H::empty(alloc), x, needed.items())
}
