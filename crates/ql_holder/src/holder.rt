ghost use Rattle.std.specs.Prelude.{◌≡◌, ◌↔◌, ◌<◌, ◌≤◌, ◌++◌, [], List, ℕ, true, false, length, slice_index, IfOk};
ghost use Rattle.ql_base.specs.IdLists.{IsAscending, has_id};
ghost use Rattle.ql_exec.specs.declared.effect.Effect.{Effect};
ghost use Rattle.ql_exec.specs.Execution.{IsExecution};
ghost use Rattle.ql_holder.specs.Needs.{AreWhole, IsPackage, JoinsNone};
ghost use Rattle.ql_holder.specs.Arrivals.{Applied, IsArrival, ChangesNothing};

use crate::arrival::Arrival;
use ql_base::{EffId, IdSet, NoMemory};
use ql_exec::Execution;
use std::alloc::Global;

/// The effects that a replica received, and which of them are applied.
///
/// An effect needs the effects that it sees, those before it in its session on its object, and the
/// others of its transaction. It is applied if all that it needs, directly or through other
/// effects, was received. A package is all effects of one transaction; an effect outside any is a
/// transaction by itself.
///
/// Executions grow while a holder exists: its contract covers each execution that it fits.
pub trait Holder: Sized + Drop {
    // The list of what was received.
    ghost received: { Self → List ℕ };

    // What the holder keeps is right for an execution.
    ghost fits: { Self → List Effect → Type 0 };

    /// A holder that has received nothing.
    fn empty(alloc: Global) -> Self
        ensures nothing { received result ≡ [] }
        ensures fits { (x : List Effect) → fits result x };

    /// Receives a package.
    fn receive(&mut self, pack: &IdSet, x: &Execution) -> Result<Arrival, NoMemory>
        requires fits { fits self.old x.now }
        requires package { IsPackage x.now pack.now }
        ensures arrival { IfOk result
            (IsArrival x.now (received self.old) pack.now (received self.new)) }
        ensures fits { fits self.new x.now }
        ensures same { ChangesNothing result → (received self.new ≡ received self.old)
            × ((y : List Effect) → fits self.old y ↔ fits self.new y) };

    /// Whether an effect was received.
    fn has(&self, e: EffId) -> bool
        ensures { result ≡ has_id (received self.now) e.0 };

    /// How many of the effects, from the first on, were received.
    fn leading(&self, ids: &[u32]) -> usize
        requires { IsAscending ids.now }
        ensures bound { result ≤ length ids.now }
        ensures has { (k : ℕ) → k < result → has_id (received self.now) (slice_index ids.now k) ≡ true }
        ensures end { result < length ids.now → has_id (received self.now) (slice_index ids.now result) ≡ false };

    /// Whether an effect is applied.
    fn applied(&self, e: EffId) -> bool
        ensures { (x : List Effect) → fits self.now x → (result ≡ true)
            ↔ Applied x (received self.now) e.0 };

    /// A holder that has received the same effects.
    fn copy(&self) -> Result<Self, NoMemory>
        ensures received { IfOk result (λ copied. received copied ≡ received self.now) }
        ensures fits { IfOk result
            (λ copied. (x : List Effect) → fits copied x ↔ fits self.now x) };

    // The ids that were received ascend.
    ghost fits_ascending: { (holder : Self) (x : List Effect) → fits holder x → IsAscending (received holder) };

    // In each execution that the holder fits, only whole transactions were received.
    ghost fits_whole: { (holder : Self) (x : List Effect) → fits holder x → AreWhole x (received holder) };

    // The holder fits a longer execution too, if that adds no effect to a transaction of which it received one.
    ghost fits_more: { (holder : Self) (x more : List Effect) → IsExecution (x ++ more) → fits holder x → JoinsNone x more (received holder) → fits holder (x ++ more) };
}
