ghost use Rattle.std.specs.Prelude.{◌≡◌, ◌≤◌, false, length};
ghost use Rattle.ql_journal.specs.MemDisks.{bytes_of};
ghost use Rattle.ql_journal.specs.Stations.{Agrees, holder_of, is_stopped};

use crate::two_effects::{push_held, push_why, two_effects};
use ql_base::{NoMemory, push_bytes};
use ql_exec::Execution;
use ql_holder::Holder;
use ql_journal::{MemDisk, Station, StationWhy};
use ql_plain_holder::{PlainHolder, package_of};
use ql_test_inputs::{check_table, id_set, number};
use std::alloc::Global;
use std::test::Fail;

// The number of the first call of the disk that fails, as all later ones do, and whether a stop leaves what was written
// or what was synced. Effect 2 is received and then effect 1: the answer to the last receipt, and what is recovered.
const STOPS: &str = "
1 synced -> no journal
2 written -> no journal
3 synced -> failed, received applied
3 written -> failed, received applied
4 written -> failed, received applied
5 written -> failed, received applied
6 synced -> failed, received applied
6 written -> failed, received 2 applied
7 synced -> failed, received 2 applied
7 written -> failed, received 2 applied
9 written -> failed, received 2 applied
10 synced -> failed, received 2 applied
10 written -> failed, received 1 2 applied 1 2
11 synced -> received, received 1 2 applied 1 2
";

#[test]
fn a_journal_is_stopped(rt: HostRuntime) -> Result<(), Fail> {
    check_table(rt.alloc(), STOPS, |alloc, row| {
        stopped(alloc, u64::from(number(row, 0)), row.ends_with("written"))
    })
}

fn stopped(alloc: Global, cut: u64, keep: bool) -> Result<Vec<u8>, NoMemory> {
    let execution = two_effects(alloc)?;
    let mut disk = MemDisk::new(alloc, 100, cut)?;
    let mut out = Vec::new(alloc);
    match Station::<PlainHolder>::create(alloc, &mut disk) {
        Ok(mut station) => {
            let answer = journal(alloc, &mut station, &mut disk, &execution);
            match answer {
                Ok(()) => push_bytes(&mut out, b"received")?,
                Err(why) => push_why(&mut out, why)?,
            }
            push_bytes(&mut out, b", ")?;
            let mut left = disk.crash(keep);
            push_recovered(alloc, &mut out, &mut left, &execution)?;
        }
        Err(_) => push_bytes(&mut out, b"no journal")?,
    }
    Ok(out)
}

// Receives the package of each effect, the last one first.
fn journal(
    alloc: Global,
    station: &mut Station<PlainHolder>,
    disk: &mut MemDisk,
    x: &Execution,
) -> Result<(), StationWhy>
    requires fits { ⟦<PlainHolder as Holder>⟧.fits (holder_of station.old) x.now }
    requires agrees { is_stopped station.old ≡ false
        → Agrees ⟦<PlainHolder as Holder>⟧.received (bytes_of disk.old) station.old }
{
    if x.len() != 2 {
        return Ok(());
    }
    receive(alloc, station, disk, x, 2)?;
    receive(alloc, station, disk, x, 1)
}

fn receive(
    alloc: Global,
    station: &mut Station<PlainHolder>,
    disk: &mut MemDisk,
    x: &Execution,
    id: u32,
) -> Result<(), StationWhy>
    requires first { 1 ≤ id }
    requires last { id ≤ length x.now }
    requires fits { ⟦<PlainHolder as Holder>⟧.fits (holder_of station.old) x.now }
    requires agrees { is_stopped station.old ≡ false
        → Agrees ⟦<PlainHolder as Holder>⟧.received (bytes_of disk.old) station.old }
    ensures fits { ⟦<PlainHolder as Holder>⟧.fits (holder_of station.new) x.now }
    ensures agrees { is_stopped station.new ≡ false
        → Agrees ⟦<PlainHolder as Holder>⟧.received (bytes_of disk.new) station.new }
{
    let pack = package_of(alloc, x, id)?;
    if pack.len() > 4000 || station.end() > 1 << 39 {
        return Ok(());
    }
    station.receive(disk, &pack, x)?;
    Ok(())
}

// What is recovered from a disk.
fn push_recovered(
    alloc: Global,
    out: &mut Vec<u8>,
    disk: &mut MemDisk,
    x: &Execution,
) -> Result<(), NoMemory> {
    let committed = id_set(alloc, &[1, 2])?;
    match Station::<PlainHolder>::recover(alloc, disk, x, &committed) {
        Ok(station) => push_held(out, station.holder(), x.len()),
        Err(why) => push_why(out, why),
    }
}
