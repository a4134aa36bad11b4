// Journals packages in a file, one after another, and reports each that it acknowledged; or recovers them from the
// file. `bench/stops` kills it at random moments while it journals, and judges what it then recovers.
ghost use Rattle.std.specs.Prelude.{◌≤◌, length};
ghost use Rattle.ql_journal.specs.Stations.{holder_of};

use crate::print_usage;
use ql_base::{DeclId, EffId, IdSet, NoMemory, RunId};
use ql_exec::{Execution, Member};
use ql_holder::Holder;
use ql_journal::{Disk, FileDisk, Station, StationWhy};
use ql_plain_holder::package_of;
use ql_replica::Replica;
use ql_reply::Status;
use ql_test_inputs::{draft, push};
use std::alloc::Global;
use std::fs::OpenOptions;
use std::io;
use std::io::Print;

// How many packages there are, of 1 to 8 effects in rotation.
const PACKAGES: u32 = 800;

/// Journals in the file that the words name, or recovers from it.
pub(crate) fn measure(rt: &HostRuntime, words: &[String]) -> io::Result<Status> {
    match words {
        [command, path] if command.as_str() == "journal" => write_file(rt, path.as_str())?,
        [command, path] if command.as_str() == "recover" => read_file(rt, path.as_str())?,
        _ => return print_usage(rt),
    }
    Ok(Status::Done)
}

fn write_file(rt: &HostRuntime, path: &str) -> io::Result<()> {
    let mut options = OpenOptions::new();
    options.read(true).write(true).create(true).truncate(true);
    let mut disk = FileDisk::new(options.open(rt, path)?);
    match effects(rt.alloc(), PACKAGES) {
        Ok(execution) => journal::<Replica, HostRuntime>(rt, rt.alloc(), &mut disk, &execution),
        Err(_) => println!(rt; "no memory"),
    }
}

fn read_file(rt: &HostRuntime, path: &str) -> io::Result<()> {
    let mut options = OpenOptions::new();
    options.read(true).write(true);
    let mut disk = FileDisk::new(options.open(rt, path)?);
    match found(rt, &mut disk) {
        Ok(Some(count)) => println!(rt; "{count}"),
        Ok(None) => println!(rt; "not the first ones"),
        Err(why) => println!(rt; "{why:?}"),
    }
}

fn found(rt: &HostRuntime, disk: &mut FileDisk) -> Result<Option<u32>, StationWhy> {
    let execution = effects(rt.alloc(), PACKAGES)?;
    let committed = all_effects(rt.alloc(), &execution)?;
    recovered::<Replica, FileDisk>(rt.alloc(), disk, &execution, &committed)
}

// The effects of this many transactions, of 1 to 8 effects in rotation, each in a session of its own.
fn effects(alloc: Global, packages: u32) -> Result<Execution, NoMemory> {
    let mut execution = Execution::new(alloc);
    for run in 0..packages {
        for _ in 0..run % 8 + 1 {
            let member = Member::Inside(RunId(run.saturating_add(1)), DeclId(0));
            push(
                &mut execution,
                draft(alloc, 0, run, member, IdSet::new(alloc)),
            )?;
        }
    }
    Ok(execution)
}

// Journals the packages of an execution in the order of their first effects, and prints after each how many effects
// are acknowledged.
fn journal<H: Holder, P: Print>(
    out: &P,
    alloc: Global,
    disk: &mut FileDisk,
    x: &Execution,
) -> io::Result<()> {
    let mut station = match Station::<H>::create(alloc, disk) {
        Ok(station) => station,
        Err(why) => return println!(out; "{why:?}"),
    };
    let mut count = 0;
    for id in 1..=x.len() {
        if !station.holder().has(EffId(id)) {
            match journal_package(alloc, &mut station, disk, x, id) {
                Ok(size) => count = u64::saturating_add(count, u64::from(size)),
                Err(why) => return println!(out; "{why:?}"),
            }
            println!(out; "{count}")?;
        }
    }
    println!(out; "done")
}

// Journals the package of an effect, if it fits into a record, and returns how many effects it has.
fn journal_package<H: Holder>(
    alloc: Global,
    station: &mut Station<H>,
    disk: &mut FileDisk,
    x: &Execution,
    id: u32,
) -> Result<u32, StationWhy>
    requires first { 1 ≤ id }
    requires last { id ≤ length x.now }
    requires fits { H.fits (holder_of station.old) x.now }
    ensures { H.fits (holder_of station.new) x.now }
{
    let pack = package_of(alloc, x, id)?;
    if pack.len() > 4000 || station.end() > 1 << 39 {
        return Ok(0);
    }
    station.receive(disk, &pack, x)?;
    Ok(pack.len() as u32)
}

// All effects of an execution.
fn all_effects(alloc: Global, x: &Execution) -> Result<IdSet, NoMemory> {
    let mut ids = IdSet::new(alloc);
    for id in 1..=x.len() {
        ids.insert(id)?;
    }
    Ok(ids)
}

// How many effects a recovered station has received, if these are the first ones.
fn recovered<H: Holder, D: Disk>(
    alloc: Global,
    disk: &mut D,
    x: &Execution,
    committed: &IdSet,
) -> Result<Option<u32>, StationWhy> {
    let station = Station::<H>::recover(alloc, disk, x, committed)?;
    let mut last = 0;
    for id in 1..=x.len() {
        if station.holder().has(EffId(id)) {
            if id - 1 != last {
                return Ok(None);
            }
            last = id;
        }
    }
    Ok(Some(last))
}
