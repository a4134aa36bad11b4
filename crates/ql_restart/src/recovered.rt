ghost use Rattle.std.specs.Prelude.{◌≡◌, ◌++◌, ◌≤◌, ℕ, List, codes, IfOk};
ghost use Rattle.ql_base.specs.IdLists.{has_id};
ghost use Rattle.ql_journal.specs.MemDisks.{content_of};
ghost use Rattle.ql_journal.specs.Records.{HasRecords, in_records};
ghost use Rattle.ql_journal.specs.Stations.{holder_of};
ghost use Rattle.ql_machine.specs.Sets.{AreThose};
ghost use Rattle.ql_holder.specs.Closed.{Has};
ghost use Rattle.ql_restart.specs.Progress.{CanRecover, HasKnown, calls_left};
ghost use Rattle.ql_restart.specs.Restarts.{IsRestartText, id_line};

use crate::journal::stopped_disk;
use ql_base::{EffId, IdSet, NoMemory, push_bytes};
use ql_exec::Execution;
use ql_holder::Holder;
use ql_journal::{MemDisk, Station, StationWhy};
use ql_report::push_ids;
use ql_shim::applied_among;
use ql_store::Store;
use std::alloc::Global;

/// What a replica that journaled these effects has after a stop at the call of number `cut`, when it is recovered.
pub(crate) fn print_recovered<H: Holder>(
    alloc: Global,
    store: &Store<H>,
    arrivals: &[u32],
    cut: u64,
) -> Result<Vec<u8>, NoMemory>
    requires { CanRecover store.now.machine arrivals.now }
    ensures { IfOk result (λ text. IsRestartText store.now.machine arrivals.now cut text.items) }
{
    let x = store.execution();
    match stopped_disk::<H>(alloc, x, arrivals, cut)? {
        None => Ok(Vec::from_slice(alloc, b"no journal\nend\n")?),
        Some(mut disk) => {
            let committed = store.committed()?;
            let station = recovered::<H>(alloc, &mut disk, x, &committed)?;
            let received = received_among(alloc, station.holder(), committed.items())?;
            let applied = applied_among(alloc, station.holder(), received.items())?;
            print_ids(alloc, received.items(), applied.items())
        }
    }
}

// The station of a disk that has a journal of known records.
fn recovered<H: Holder>(
    alloc: Global,
    disk: &mut MemDisk,
    x: &Execution,
    committed: &IdSet,
) -> Result<Station<H>, NoMemory>
    requires known { HasKnown x.now committed.now (content_of disk.old) }
    requires runs { 1 ≤ calls_left disk.old }
    ensures fits { IfOk result (λ station. H.fits (holder_of station) x.now) }
    ensures received { IfOk result
        (λ station. (records : List (List ℕ)) → HasRecords records (content_of disk.old)
        → (a : ℕ) → has_id (H.received (holder_of station)) a ≡ in_records records a) }
{
    match Station::<H>::recover(alloc, disk, x, committed) {
        Ok(station) => Ok(station),
        Err(StationWhy::NoMemory) => Err(NoMemory),
        Err(_) => unreachable!(),
    }
}

// Which of some effects a holder received.
fn received_among<H: Holder>(alloc: Global, holder: &H, ids: &[u32]) -> Result<IdSet, NoMemory>
    ensures { IfOk result (AreThose (λ a. Has ids.now a × Has (H.received holder.now) a)) }
{
    let mut found = IdSet::new(alloc);
    for id in ids {
        if holder.has(EffId(*id)) {
            found.insert(*id)?;
        }
    }
    Ok(found)
}

fn print_ids(alloc: Global, received: &[u32], applied: &[u32]) -> Result<Vec<u8>, NoMemory>
    ensures { IfOk result
        (λ text. text.items ≡ id_line (codes "received") received.now
        ++ id_line (codes "applied") applied.now ++ codes "end\n") }
{
    let mut text = Vec::new(alloc);
    push_bytes(&mut text, b"received")?;
    push_ids(&mut text, received)?;
    push_bytes(&mut text, b"\napplied")?;
    push_ids(&mut text, applied)?;
    push_bytes(&mut text, b"\nend\n")?;
    Ok(text)
}
