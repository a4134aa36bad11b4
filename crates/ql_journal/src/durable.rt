ghost use Rattle.std.specs.Prelude.{◌≡◌, ◌<◌, ◌≤◌, ◌+◌, ◌^◌, length, OnOk, OnErr, IfSome};
ghost use Rattle.std.specs.Result.{is_ok};
ghost use Rattle.ql_ports.specs.Faults.{Rose};
ghost use Rattle.ql_journal.specs.Bytes.{IsClean, MayLeave, overwritten};
ghost use Rattle.ql_journal.specs.Forecasts.{Foretold};
ghost use Rattle.ql_journal.specs.Moments.{LeavesOnly};

use crate::disk::Disk;
use ql_ports::Failed;

/// Writes bytes from the offset `at` on and syncs. After `Ok` they are durable. A stop at any moment of the call
/// changes bytes only in their range and past the end. After `Failed` the last good sync is still the one before the
/// call.
pub fn write_durably<D: Disk>(disk: &mut D, at: u64, bytes: &[u8]) -> Result<(), Failed>
    requires begins { D.reports → at ≤ length (D.held disk.old).content }
    requires ends { at + length bytes.now < 2 ^ 40 }
    requires clean { D.reports → IsClean (D.held disk.old) }
    ensures written { D.reports
        → OnOk result ((D.held disk.new).content
        ≡ overwritten (D.held disk.old).content at bytes.now) }
    ensures clean { D.reports → OnOk result (IsClean (D.held disk.new)) }
    ensures base { D.reports → OnErr result ((D.held disk.new).base ≡ (D.held disk.old).content) }
    ensures any_moment { D.reports
        → LeavesOnly D.moment D.left_since disk.old disk.new
        (MayLeave (D.held disk.old).content at (length bytes.now)) }
    ensures failed { OnErr result (Rose (D.faults disk.old) (D.faults disk.new)) }
    ensures count_stays { D.faults disk.old ≤ D.faults disk.new }
    ensures foretold { IfSome (D.forecast disk.old)
        (λ f. Foretold f 2 (at + length bytes.now) (is_ok result) (D.forecast disk.new)) }
{
    disk.write_at(at, bytes)?;
    disk.sync()
}
