use ql_base::NoMemory;
use ql_schedule::{parse_schedule, print_schedule};
use ql_test_inputs::{SHOP, check_table, declared};
use std::alloc::Global;
use std::test::Fail;

const SOURCE: &str =
    "type stock { op restock(n: int): unit { contract true; answer unit; } op left(): unit { contract true; answer unit; } }
type cart { op add(item: text, n: int, gift: bool): unit { contract true; answer unit; } }
transaction fill { uses add; contract true; }
transaction look { uses left; contract true; }";

// Files, and how an independent implementation prints the schedule of each. The last one has each kind of event.
const FILES: &str = r#"
# none␍␊␊  quelea   schedule  1 ␍␊ replicas  1␍␊events -> quelea schedule 1␊replicas 1␊events␊
quelea schedule 1␊replicas 16␊events␊ -> quelea schedule 1␊replicas 16␊events␊
quelea schedule 2␊replicas 1␊events␊ -> quelea schedule 2␊replicas 1␊events␊
quelea schedule 2␊replicas 2␊object p stock␊events␊join copy 1␊partition 0 1 15␊call 0 at 2 p left␊ -> quelea schedule 2␊replicas 2␊object p stock␊events␊join copy 1␊partition 0 1 15␊call 0 at 2 p left␊
quelea schedule 2␊replicas 2␊events␊join  copy 1␊join bare 2 ␊resend 1 from 3 to 2␊ -> quelea schedule 2␊replicas 2␊events␊join copy 1␊join bare 2␊resend 1 from 3 to 2␊
quelea schedule 1␊replicas 2␊object p stock␊object c cart␊events␊call 1 at 0 p restock 10␊  call  1  at  0  p  restock  10  ␊call 255 at 1 c add "a b" -3 true␊call 1 at 0 p restock 9223372036854775807␊call 1 at 0 p restock -9223372036854775808␊call 1 at 0 c add "" 0 false␊call 1 at 0 c add "aaaaaaaaaaaaaaaaaaaaaaaaaaaaaaaaaaaaaaaaaaaaaaaaaaaaaaaaaaaaaaaa" 0 false␊begin 1 at 0 fill c␊begin 1 at 0 fill c p␊commit 0 at 1␊deliver 4294967295␊deliver 0␊repeat 3␊lose 12␊resend 1 from 0 to 1␊partition 0 15␊heal␊ -> quelea schedule 1␊replicas 2␊object p stock␊object c cart␊events␊call 1 at 0 p restock 10␊call 1 at 0 p restock 10␊call 255 at 1 c add "a b" -3 true␊call 1 at 0 p restock 9223372036854775807␊call 1 at 0 p restock -9223372036854775808␊call 1 at 0 c add "" 0 false␊call 1 at 0 c add "aaaaaaaaaaaaaaaaaaaaaaaaaaaaaaaaaaaaaaaaaaaaaaaaaaaaaaaaaaaaaaaa" 0 false␊begin 1 at 0 fill c␊begin 1 at 0 fill p c␊commit 0 at 1␊deliver 4294967295␊deliver 0␊repeat 3␊lose 12␊resend 1 from 0 to 1␊partition 0 15␊heal␊
"#;

#[test]
fn files_are_schedules(rt: HostRuntime) -> Result<(), Fail> {
    check_table(rt.alloc(), FILES, |alloc, file| {
        said_of(alloc, SOURCE, file.as_bytes())
    })
}

fn said_of(alloc: Global, source: &str, file: &[u8]) -> Result<Vec<u8>, NoMemory> {
    let Some(typed) = declared(alloc, source) else {
        return Ok(Vec::from_slice(alloc, b"no source")?);
    };
    match parse_schedule(alloc, &typed, file) {
        Ok(schedule) => print_schedule(alloc, &typed, &schedule),
        Err(_) => Ok(Vec::from_slice(alloc, b"a fault")?),
    }
}

// The shop, and its schedule of 40 events.
const SHOP_SCHEDULE: &str = r#"quelea schedule 1
replicas 3
object p stock
object c cart
events
call 1 at 0 p restock 10
deliver 1
call 2 at 1 p stock_left
begin 1 at 0 fill c
call 1 at 0 c add_item "tea" 2
call 1 at 0 c add_item "cup" 1
call 3 at 0 c show
commit 1 at 0
partition 0 0 1
deliver 8
call 4 at 2 p reserve 3
lose 8
deliver 7
begin 2 at 1 follow c
call 2 at 1 c show
call 2 at 2 c add_item "tea" 1
heal
resend 3 from 0 to 2
deliver 9
call 2 at 2 c add_item "tea" 1
call 4 at 2 p reserve 3
commit 2 at 2
deliver 3
begin 3 at 0 report p c
deliver 10
call 3 at 0 c show
call 3 at 1 p stock_left
commit 3 at 0
call 5 at 0 c show
repeat 11
deliver 11
deliver 11
deliver 14
deliver 12
call 5 at 1 p stock_left
call 1 at 2 p stock_left
call 1 at 0 p stock_left
deliver 18
call 1 at 0 p stock_left
call 4 at 2 p reserve 8
"#;

#[test]
fn the_shop_is_printed_as_it_was_read(rt: HostRuntime) -> Result<(), Fail> {
    let text = said_of(rt.alloc(), SHOP, SHOP_SCHEDULE.as_bytes())?;
    if text.as_slice() == SHOP_SCHEDULE.as_bytes() {
        Ok(())
    } else {
        Err(Fail::new(format_args!("the shop is printed otherwise")))
    }
}
