use crate::two_effects::{push_held, push_why, two_effects};
use ql_base::NoMemory;
use ql_journal::{Disk, MemDisk, Station};
use ql_plain_holder::PlainHolder;
use ql_test_inputs::{check_table, id_set, number};
use std::alloc::Global;
use std::test::Fail;

// The bytes of a file, and what is recovered from them with both effects committed.
const FILES: &str = "
none -> damaged 0
0 -> received applied
0 1 -> received applied
7 0 0 0 1 0 0 0 2 -> received applied
1 -> damaged 0
1 0 0 -> damaged 0
1 0 0 0 0 0 -> damaged 0
1 0 0 0 1 0 0 0 -> damaged 0
1 0 0 0 1 0 0 0 2 -> damaged 9
1 0 0 0 1 0 0 0 2 0 -> received 2 applied
1 0 0 0 1 0 0 0 2 9 9 -> received 2 applied
1 0 0 0 1 0 0 0 2 1 -> damaged 9
1 0 0 0 1 0 0 0 2 1 0 0 0 1 0 0 0 1 0 -> received 1 2 applied 1 2
1 0 0 0 1 0 0 0 2 1 0 0 0 1 0 0 0 2 0 -> received 2 applied
1 0 0 0 1 0 0 0 1 0 -> received 1 applied 1
1 0 0 0 1 0 0 0 0 0 -> damaged 0
1 0 0 0 1 0 0 0 9 0 -> stranger 0
1 0 0 0 1 1 0 0 1 0 -> stranger 0
1 0 0 0 1 0 0 0 2 1 0 0 0 1 0 0 0 9 0 -> stranger 9
1 0 0 0 1 0 0 0 9 1 0 0 0 0 -> stranger 0
1 0 0 0 2 0 0 0 1 0 0 0 2 0 -> stranger 0
1 0 0 0 2 0 0 0 2 0 0 0 1 0 -> damaged 0
1 0 0 0 2 0 0 0 2 0 0 0 2 0 -> damaged 0
1 0 0 15 161 0 -> damaged 0
";

#[test]
fn a_file_is_recovered(rt: HostRuntime) -> Result<(), Fail> {
    check_table(rt.alloc(), FILES, |alloc, row| {
        let mut bytes = Vec::new(alloc);
        if row != "none" {
            for word in row.split_whitespace() {
                bytes.push((number(word, 0) % 256) as u8)?;
            }
        }
        recovered(alloc, &bytes)
    })
}

// What is recovered from a disk with these bytes.
fn recovered(alloc: Global, bytes: &[u8]) -> Result<Vec<u8>, NoMemory> {
    let execution = two_effects(alloc)?;
    let committed = id_set(alloc, &[1, 2])?;
    let mut disk = MemDisk::new(alloc, 100, 1000)?;
    if bytes.len() < 100 {
        let _ = disk.write_at(0, bytes);
    }
    let mut out = Vec::new(alloc);
    match Station::<PlainHolder>::recover(alloc, &mut disk, &execution, &committed) {
        Ok(station) => push_held(&mut out, station.holder(), execution.len())?,
        Err(why) => push_why(&mut out, why)?,
    }
    Ok(out)
}
