use crate::levels::levels_of;
use crate::replies::push_replies;
use ql_base::{NoMemory, push_bytes};
use ql_holder::Holder;
use ql_plain_holder::PlainHolder;
use ql_replica::Replica;
use ql_runs::run_schedule;
use ql_schedule::parse_schedule;
use ql_test_inputs::{check_table, declared, spelled};
use ql_typing::Typed;
use std::alloc::Global;
use std::test::Fail;

const ACCOUNTS: &str = r#"type account { state balance: int = 0;
  op deposit(n: int): unit { contract true; answer unit; emit p: int = n when true; apply { balance := balance + p; } }
  op withdraw(n: int): bool { contract true; answer balance >= n;
    emit p: int = n when balance >= n; apply { balance := balance - p; } }
  op getbalance(): int { contract true; answer balance; } }
transaction audit { uses deposit, getbalance; contract true; }
transaction peek { uses deposit, getbalance; contract true; }
transaction trail { uses deposit, getbalance; contract true; }"#;

const ACCOUNT_LEVELS: &str = "eventual strong eventual rr rc mav";

const ACCOUNT_HEADING: &str = "quelea schedule 2
replicas 2
object x account
object y account
events
";

// Events with semicolons between them, and the replies of an independent implementation at these levels. In the last rows
// replicas join.
const ACCOUNT_RUNS: &str = "
call 1 at 0 x deposit 100; call 2 at 1 x getbalance; deliver 1; call 2 at 1 x getbalance -> ok 1 unit; ok 2 0; applies 1; ok 3 100
partition 0 1; call 1 at 0 x withdraw 5; call 1 at 0 x deposit 5; heal; call 1 at 0 x withdraw 5; call 2 at 1 x getbalance; deliver 1 -> split; unavailable 1; ok 1 unit; healed; ok 2 true; ok 3 0; again
call 1 at 0 x deposit 10; call 1 at 1 x deposit 5; call 2 at 1 x getbalance; deliver 1; call 2 at 1 x getbalance -> ok 1 unit; ok 2 unit; ok 3 0; applies 1 2; ok 4 15
begin 1 at 0 audit x; call 2 at 0 x withdraw 5; commit 1 at 0; call 2 at 0 x withdraw 5 -> begun; held 1; committed; ok 1 false
call 2 at 1 x deposit 7; begin 1 at 0 audit x; call 1 at 0 x getbalance; deliver 1; call 1 at 0 x getbalance; commit 1 at 0; call 3 at 0 x getbalance -> ok 1 unit; begun; ok 2 0; applies 1; ok 3 0; committed 2 3; ok 4 7
call 2 at 1 x deposit 7; begin 1 at 0 peek x; call 1 at 0 x getbalance; deliver 1; call 1 at 0 x getbalance -> ok 1 unit; begun; ok 2 0; applies 1; ok 3 7
call 2 at 1 x deposit 7; begin 1 at 1 trail x; call 1 at 1 x getbalance; call 1 at 0 x getbalance -> ok 1 unit; begun; ok 2 7; blocked 1
call 2 at 1 x deposit 7; begin 1 at 1 peek x; call 1 at 1 x getbalance; call 1 at 0 x getbalance -> ok 1 unit; begun; ok 2 7; ok 3 0
call 1 at 0 x deposit 9223372036854775807; call 1 at 0 x deposit 1; call 1 at 0 x getbalance -> ok 1 unit; ok 2 unit; ok 3 9223372036854775807
begin 1 at 0 audit x; begin 1 at 0 audit y; call 1 at 0 y deposit 1; call 1 at 0 x withdraw 1; commit 2 at 0; resend 1 from 0 to 1 -> begun; refused 1; refused 3; refused 4; refused 2; refused 5
begin 1 at 0 audit x y; call 1 at 0 x deposit 5; call 1 at 1 y deposit 7; call 2 at 0 x getbalance; commit 1 at 0; deliver 1; call 2 at 1 y getbalance; resend 2 from 1 to 0; deliver 2; commit 1 at 0 -> begun; ok 1 unit; ok 2 unit; ok 3 0; committed 1 2; applies 3; ok 4 0; refused 5; applies 1 2; refused 2
call 1 at 0 x deposit 1; partition 3 7; deliver 1; lose 1; heal; deliver 1; call 2 at 1 x withdraw 1; deliver 1 -> ok 1 unit; split; cut; lost; healed; gone; ok 2 true; gone
call 1 at 1 x deposit 3; call 2 at 0 y deposit 4; begin 3 at 0 trail x y; begin 4 at 1 trail x y; call 4 at 1 x getbalance; call 4 at 0 y getbalance; call 3 at 0 y getbalance; deliver 1; call 4 at 0 y getbalance; commit 4 at 0; call 5 at 1 y withdraw 2; commit 3 at 1; call 5 at 1 y withdraw 2; deliver 2; deliver 3 -> ok 1 unit; ok 2 unit; begun; begun; ok 3 3; blocked 1; ok 4 4; applies 1; ok 5 4; committed 3 5; held 3; committed 4; ok 6 true; again; again
begin 7 at 0 peek x; begin 4 at 1 peek x; call 7 at 0 x withdraw 1; call 9 at 0 x withdraw 1; partition 1 2; call 9 at 1 x withdraw 1; commit 4 at 1; commit 7 at 0; heal; call 9 at 0 x withdraw 1 -> begun; begun; refused 4; held 4; split; unavailable 0; committed; committed; healed; ok 1 false
call 1 at 0 x deposit 100; join bare 0; call 3 at 2 x getbalance; call 1 at 0 x withdraw 30; join bare 1; call 4 at 3 x getbalance; partition 0 0 0 1; call 1 at 0 x withdraw 5 -> ok 1 unit; joined 2; ok 2 0; ok 3 true; joined 3; ok 4 70; split; unavailable 3
call 1 at 0 x deposit 7; call 1 at 1 y deposit 9; join copy 0; call 3 at 2 x getbalance; call 3 at 2 y getbalance; deliver 2; call 2 at 2 x deposit 1; deliver 3; deliver 4 -> ok 1 unit; ok 2 unit; joined 2; ok 3 7; ok 4 0; applies 2; ok 5 unit; applies 3; waits 1
partition 0 1; join copy 1; call 1 at 2 x deposit 4; deliver 2; deliver 1; heal; deliver 1; call 5 at 2 x withdraw 3; join bare 0; call 6 at 3 x getbalance; call 6 at 3 y getbalance -> split; joined 2; ok 1 unit; applies 1; cut; healed; applies 1; ok 2 true; joined 3; ok 3 1; ok 4 0
begin 1 at 0 audit x; call 1 at 0 x deposit 5; join bare 1; call 2 at 2 x withdraw 1; commit 1 at 2; deliver 1; call 2 at 2 x withdraw 1; join bare 2; call 3 at 3 x getbalance -> begun; ok 1 unit; joined 2; held 1; committed 1; applies 1; ok 2 true; joined 3; ok 3 4
";

#[test]
fn accounts(rt: HostRuntime) -> Result<(), Fail> {
    check_table(rt.alloc(), ACCOUNT_RUNS, |alloc, events| {
        replied(alloc, ACCOUNTS, ACCOUNT_LEVELS, ACCOUNT_HEADING, events)
    })
}

// The replies to events, if replicas of both bodies reply alike.
fn replied(
    alloc: Global,
    source: &str,
    levels: &str,
    heading: &str,
    events: &str,
) -> Result<Vec<u8>, NoMemory> {
    let Some(typed) = declared(alloc, source) else {
        return spelled(alloc, "no program");
    };
    let file = schedule_file(alloc, heading, events)?;
    let replies = replied_by::<Replica>(alloc, &typed, levels, &file)?;
    let others = replied_by::<PlainHolder>(alloc, &typed, levels, &file)?;
    if replies.as_slice() != others.as_slice() {
        return spelled(alloc, "the bodies reply otherwise");
    }
    Ok(replies)
}

fn replied_by<H: Holder>(
    alloc: Global,
    typed: &Typed,
    levels: &str,
    file: &[u8],
) -> Result<Vec<u8>, NoMemory> {
    let Some(levels) = levels_of(alloc, typed, levels)? else {
        return spelled(alloc, "no levels");
    };
    match parse_schedule(alloc, typed, file) {
        Err(_) => spelled(alloc, "no schedule"),
        Ok(schedule) => {
            let run = run_schedule::<H>(alloc, typed, levels, schedule)?;
            let mut out = Vec::new(alloc);
            push_replies(&mut out, &run.replies, run.store.execution())?;
            Ok(out)
        }
    }
}

// A schedule with one line per event.
fn schedule_file(alloc: Global, heading: &str, events: &str) -> Result<Vec<u8>, NoMemory> {
    let mut file = Vec::new(alloc);
    push_bytes(&mut file, heading.as_bytes())?;
    for event in events.split("; ") {
        push_bytes(&mut file, event.as_bytes())?;
        push_bytes(&mut file, b"\n")?;
    }
    Ok(file)
}
