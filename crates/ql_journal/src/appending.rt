ghost use Rattle.std.specs.Prelude.{◌<◌, ◌≤◌, ◌+◌, ◌^◌, ◌++◌, ◌∷◌, [], ℕ, List, length, OnOk, OnErr, IfSome};
ghost use Rattle.std.specs.Result.{is_ok};
ghost use Rattle.ql_journal.specs.Bytes.{IsClean};
ghost use Rattle.ql_journal.specs.Forecasts.{Foretold};
ghost use Rattle.ql_journal.specs.Moments.{LeavesOnly};
ghost use Rattle.ql_ports.specs.Faults.{Rose};
ghost use Rattle.ql_journal.specs.Images.{IsAppended, IsBeforeOrAfter};
ghost use Rattle.ql_journal.specs.Records.{HasRecords};

use crate::disk::Disk;
use crate::durable::write_durably;
use ql_ports::Failed;

/// Writes what follows the gate of a record, with a closed gate after it, and then opens the record's gate.
pub(crate) fn append_record<D: Disk>(disk: &mut D, gate: u64, bytes: &[u8]) -> Result<(), Failed>
    requires ends { gate + 1 + length bytes.now < 2 ^ 40 }
    requires inside { D.reports → gate < length (D.held disk.old).content }
    requires clean { D.reports → IsClean (D.held disk.old) }
    ensures clean { D.reports → OnOk result (IsClean (D.held disk.new)) }
    ensures any_moment { D.reports → (records : List (List ℕ)) (ids : List ℕ)
        → IsAppended records ids gate bytes.now (D.held disk.old).content
        → LeavesOnly D.moment D.left_since disk.old disk.new (IsBeforeOrAfter records ids) }
    ensures appended { D.reports → (records : List (List ℕ)) (ids : List ℕ)
        → IsAppended records ids gate bytes.now (D.held disk.old).content
        → OnOk result (HasRecords (records ++ ids ∷ []) (D.held disk.new).content) }
    ensures kept { D.reports → (records : List (List ℕ)) (ids : List ℕ)
        → IsAppended records ids gate bytes.now (D.held disk.old).content
        → OnErr result (HasRecords records (D.held disk.new).base) }
    ensures failed { OnErr result (Rose (D.faults disk.old) (D.faults disk.new)) }
    ensures count_stays { D.faults disk.old ≤ D.faults disk.new }
    ensures foretold { IfSome (D.forecast disk.old)
        (λ f. Foretold f 4 (gate + 1 + length bytes.now) (is_ok result) (D.forecast disk.new)) }
{
    write_durably(disk, gate + 1, bytes)?;
    write_durably(disk, gate, &[1])
}
