ghost use Rattle.std.specs.Prelude.{◌≡◌, ◌≤◌, ◌∷◌, IfOk, OnOk, IfErr, IsErrOf, IfSome, MatchOption};
ghost use Rattle.ql_journal.specs.Bytes.{IsClean};
ghost use Rattle.ql_ports.specs.Faults.{Rose};
ghost use Rattle.ql_journal.specs.declared.why.StationWhy.TheVariants as why;
ghost use Rattle.ql_journal.specs.Gates.{IsShut};
ghost use Rattle.ql_journal.specs.Stations.{IsOfBytes, IsOfReading, Received, Recovers};

use crate::disk::Disk;
use crate::known::is_known;
use crate::reading::ids_of_record;
use crate::why::StationWhy;
use ql_base::IdSet;
use ql_exec::Execution;
use ql_holder::Holder;
use std::alloc::Global;

/// All bytes of a disk, after a sync.
pub(crate) fn read_file<D: Disk>(alloc: Global, disk: &mut D) -> Result<Vec<u8>, StationWhy>
    ensures bytes { D.reports → IfOk result (λ bytes. bytes.items ≡ (D.held disk.old).content) }
    ensures content { D.reports → (D.held disk.new).content ≡ (D.held disk.old).content }
    ensures clean { D.reports → OnOk result (IsClean (D.held disk.new)) }
    ensures causes { IfErr result IsOfReading }
    ensures failed { IsErrOf result why.Failed → Rose (D.faults disk.old) (D.faults disk.new) }
    ensures count_stays { D.faults disk.old ≤ D.faults disk.new }
    ensures foretold { IfSome (D.forecast disk.old)
        (λ f. 1 ≤ f.calls → IsErrOf result why.Failed → ⊥) }
{
    disk.sync()?;
    let size = disk.size()?;
    let mut bytes = vec![in alloc; 0; size as usize]?;
    disk.read(0, bytes.as_mut_slice())?;
    Ok(bytes)
}

/// A holder that received the records of a file, and the offset at which they end.
pub(crate) fn received_in<H: Holder>(
    alloc: Global,
    bytes: &[u8],
    x: &Execution,
    committed: &IdSet,
) -> Result<(H, u64), StationWhy>
    ensures recovers { Recovers
        (λ found. Received H.received x.now committed.now bytes.now found.0 found.1) x.now
        committed.now bytes.now result }
    ensures fits { IfOk result (λ found. H.fits found.0 x.now) }
    ensures causes { IfErr result IsOfBytes }
{
    let mut holder = H::empty(alloc);
    let mut rest = bytes;
    while let Some(entry) = opened(rest) {
        let at = (bytes.len() - rest.len()) as u64;
        let Some(ids) = ids_of_record(alloc, entry)? else {
            return Err(StationWhy::Damaged(at));
        };
        if !is_known(x, committed, &ids) {
            return Err(StationWhy::Stranger(at));
        }
        holder.receive(&ids, x)?;
        (_, rest) = entry.split_at(4 + 4 * ids.len());
    }
    if rest.is_empty() {
        return Err(StationWhy::Damaged(bytes.len() as u64));
    }
    Ok((holder, (bytes.len() - rest.len()) as u64))
}

// The bytes after an open gate.
fn opened(bytes: &[u8]) -> Option<&[u8]>
    ensures { MatchOption result (IsShut bytes.now) (λ entry. bytes.now ≡ 1 ∷ entry.now) }
{
    match bytes {
        [1, entry @ ..] => Some(entry),
        _ => None,
    }
}
