use ql_base::{NoMemory, push_bytes};
use ql_ports::{FileShelf, MemShelf, MemSink, ReadWhy, read_whole, write_whole};
use ql_test_inputs::{check_table, field, number};
use std::alloc::Global;
use std::test::Fail;

const TEXT: &[u8] = b"seven b";

// How many bytes a fetch returns, which fetch fails (0 for none), the name and the most bytes, and how it ends.
const READ: &str = "
1 0 text 7 -> seven b
1 9 text 100 -> seven b
3 0 text 7 -> seven b
100 0 text 100 -> seven b
1 1 text 7 -> failed
1 8 text 7 -> failed
3 0 text 6 -> too long
1 0 text 0 -> too long
1 0 tex 7 -> failed
";

#[test]
fn reads_to_the_end_or_says_why_not(rt: HostRuntime) -> Result<(), Fail> {
    check_table(rt.alloc(), READ, read)
}

fn read(alloc: Global, row: &str) -> Result<Vec<u8>, NoMemory> {
    let mut files = Vec::new(alloc);
    let bytes = Vec::from_slice(alloc, TEXT)?;
    files.push((String::from_str(alloc, "text")?, bytes))?;
    let failing = Vec::from_slice(alloc, &[u64::from(number(row, 1))])?;
    let piece = number(row, 0).max(1) as usize;
    let mut shelf = MemShelf::new(alloc, files, piece, failing)?;
    let read = read_whole(alloc, &mut shelf, field(row, 2), u64::from(number(row, 3)));
    outcome(alloc, read)
}

fn outcome(alloc: Global, read: Result<Vec<u8>, ReadWhy>) -> Result<Vec<u8>, NoMemory> {
    match read {
        Ok(bytes) => Ok(bytes),
        Err(ReadWhy::Failed) => Ok(Vec::from_slice(alloc, b"failed")?),
        Err(ReadWhy::TooLong) => Ok(Vec::from_slice(alloc, b"too long")?),
        Err(ReadWhy::NoMemory) => Err(NoMemory),
    }
}

// How many bytes fit, how many a put takes and which put fails (0 for none), and what was written.
const WRITTEN: &str = "
7 1 0 -> all [seven b]
100 100 0 -> all [seven b]
6 4 0 -> part [seven ]
7 3 1 -> part []
7 3 2 -> part [sev]
";

#[test]
fn writes_all_or_a_prefix(rt: HostRuntime) -> Result<(), Fail> {
    check_table(rt.alloc(), WRITTEN, written)
}

fn written(alloc: Global, row: &str) -> Result<Vec<u8>, NoMemory> {
    let failing = Vec::from_slice(alloc, &[u64::from(number(row, 2))])?;
    let piece = number(row, 1).max(1) as usize;
    let mut sink = MemSink::new(alloc, number(row, 0) as usize, piece, failing)?;
    let all = write_whole(&mut sink, TEXT).is_ok();
    let mut out = Vec::new(alloc);
    push_bytes(&mut out, if all { b"all [" } else { b"part [" })?;
    push_bytes(&mut out, sink.bytes())?;
    push_bytes(&mut out, b"]")?;
    Ok(out)
}

// The most bytes of a file, its name, and how it ends.
const SYSTEM: &str = "
0 /dev/null -> 
100 / -> failed
100 no such file -> failed
100  -> failed
200000 /dev/zero -> too long
";

#[test]
fn the_system_gives_files_and_faults(rt: HostRuntime) -> Result<(), Fail> {
    check_table(rt.alloc(), SYSTEM, |alloc, row| read_from(alloc, &rt, row))
}

fn read_from(alloc: Global, rt: &HostRuntime, row: &str) -> Result<Vec<u8>, NoMemory> {
    let (most, name) = row.split_once(' ').unwrap_or((row, ""));
    let mut shelf = FileShelf::new(alloc, rt.clone()?);
    let read = read_whole(alloc, &mut shelf, name, u64::from(number(most, 0)));
    outcome(alloc, read)
}
