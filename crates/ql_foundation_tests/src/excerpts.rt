use ql_base::NoMemory;
use ql_notes::{File, Spot, push_fault};
use ql_test_inputs::{check_table, number};
use std::alloc::Global;
use std::test::Fail;

// From which byte on and how many bytes of a text are wrong, the text, and its line with a mark below.
const FAULTS: &str = "
0 1 a␊ -> f:1:1: Rule: why␊    a␊    ^␊
5 3 ab␊cdefg␊h -> f:2:3: Rule: why␊    cdefg␊      ^^^␊
2 1 ␉xy -> f:1:3: Rule: why␊    ␉xy␊    ␉ ^␊
2 1 a␊ -> f:2:1: Rule: why␊
9 1 a -> f:1:2: Rule: why␊    a␊     ^␊
";

#[test]
fn marks_what_is_wrong(rt: HostRuntime) -> Result<(), Fail> {
    check_table(rt.alloc(), FAULTS, marked)
}

fn marked(alloc: Global, row: &str) -> Result<Vec<u8>, NoMemory> {
    let (from, rest) = row.split_once(' ').unwrap_or((row, ""));
    let (bytes, text) = rest.split_once(' ').unwrap_or((rest, ""));
    let file = File {
        name: b"f",
        text: text.as_bytes(),
    };
    let spot = Spot {
        from: number(from, 0) as usize,
        bytes: number(bytes, 0) as usize,
    };
    let mut note = Vec::new(alloc);
    push_fault(&mut note, file, spot, b"Rule", b"why")?;
    Ok(note)
}
