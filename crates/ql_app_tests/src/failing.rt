use crate::asking::{BY_BYTES, Outside, answer_in_common, answer_outside, report, words_of};
use ql_app::Status;
use ql_base::{NoMemory, push_bytes, push_number};
use ql_test_inputs::{BANK, check_table};
use std::alloc::Global;
use std::test::Fail;

const SCHEDULE: &[u8] = b"quelea schedule 1
replicas 2
object x account
events
call 1 at 0 x deposit 100
call 2 at 1 x getbalance
deliver 1
call 2 at 1 x getbalance
";

// A run of the bank, whose source has 984 bytes and whose schedule has 139. They are fetched byte by byte, and one
// fetch more reaches the end. For each range of numbers, that fetch fails, with this answer.
const FETCHES: &str = "
1 985 -> 3: read fault source␊
986 1125 -> 3: read fault other␊
";

#[test]
fn reports_each_fetch_that_fails(rt: HostRuntime) -> Result<(), Fail> {
    check_table(rt.alloc(), FETCHES, fetches_answered)
}

fn fetches_answered(alloc: Global, range: &str) -> Result<Vec<u8>, NoMemory> {
    answer_in_common(alloc, range, answered_to_failing_fetch)
}

fn answered_to_failing_fetch(alloc: Global, failing: u32) -> Result<Vec<u8>, NoMemory> {
    let (status, text) = run(
        alloc,
        &Outside {
            failing_fetch: u64::from(failing),
            ..BY_BYTES
        },
    )?;
    report(alloc, status, &text)
}

// The same run, whose text has 379 bytes, put 16 at a time. For each range of numbers, that put fails, with this exit
// status, and what was written is a prefix of the text, with 16 bytes for each put before.
const PUTS: &str = "
1 24 -> 4: written up to there
25 25 -> 0: written up to there
";

#[test]
fn writes_up_to_a_put_that_fails(rt: HostRuntime) -> Result<(), Fail> {
    check_table(rt.alloc(), PUTS, puts_answered)
}

fn puts_answered(alloc: Global, range: &str) -> Result<Vec<u8>, NoMemory> {
    answer_in_common(alloc, range, written_to_failing_put)
}

fn written_to_failing_put(alloc: Global, failing: u32) -> Result<Vec<u8>, NoMemory> {
    let (_, whole) = run(alloc, &BY_BYTES)?;
    let (status, text) = run(
        alloc,
        &Outside {
            put: 16,
            failing_put: u64::from(failing),
            ..BY_BYTES
        },
    )?;
    let before = (failing as usize).saturating_sub(1).saturating_mul(16);
    let expected = &whole[..before.min(whole.len())];
    let mut out = Vec::new(alloc);
    push_number(&mut out, status.number())?;
    if text.as_slice() == expected {
        push_bytes(&mut out, b": written up to there")?;
    }
    Ok(out)
}

fn run(alloc: Global, outside: &Outside) -> Result<(Status, Vec<u8>), NoMemory> {
    let words = words_of(alloc, "run source other")?;
    answer_outside(alloc, &words, &[BANK.as_bytes(), SCHEDULE], outside)
}
