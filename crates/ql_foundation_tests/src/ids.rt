use ql_base::{Names, NoMemory, push_bytes, push_number};
use ql_test_inputs::{check_table, field, id_set_of, number};
use std::alloc::Global;
use std::test::Fail;

// Ids in the order in which they are added, one more id, and the set.
const ADDED: &str = "
7 3 9 3 1 + 7 -> known: 1 3 7 9
7 3 9 3 1 + 8 -> new: 1 3 7 8 9
1 3 7 8 9 + 0 -> new: 0 1 3 7 8 9
1 3 7 8 9 + 1 -> known: 1 3 7 8 9
1 3 7 8 9 + 2 -> new: 1 2 3 7 8 9
1 3 7 8 9 + 9 -> known: 1 3 7 8 9
1 3 7 8 9 + 10 -> new: 1 3 7 8 9 10
 + 4294967295 -> new: 4294967295
";

#[test]
fn keeps_each_id_once_in_order(rt: HostRuntime) -> Result<(), Fail> {
    check_table(rt.alloc(), ADDED, added)
}

fn added(alloc: Global, row: &str) -> Result<Vec<u8>, NoMemory> {
    let (ids, one_more) = row.split_once(" + ").unwrap_or((row, ""));
    let mut set = id_set_of(alloc, ids)?;
    let id = number(one_more, 0);
    let known = set.has(id);
    let new = set.insert(id)?;
    let copy = set.copy()?;
    spelled(alloc, new_or_known(new, known), copy.items())
}

fn new_or_known(new: bool, known: bool) -> &'static str {
    match (new, known) {
        (true, false) => "new:",
        (false, true) => "known:",
        _ => "unclear:",
    }
}

// Two sets, and the ids that are in either.
const UNITED: &str = "
 + -> union:
2 5 + -> union: 2 5
2 5 + 1 2 3 9 -> union: 1 2 3 5 9
8 + 1 8 -> union: 1 8
";

#[test]
fn unites(rt: HostRuntime) -> Result<(), Fail> {
    check_table(rt.alloc(), UNITED, united)
}

fn united(alloc: Global, row: &str) -> Result<Vec<u8>, NoMemory> {
    let (left, right) = row.split_once(" +").unwrap_or((row, ""));
    let both = id_set_of(alloc, left)?.union(&id_set_of(alloc, right.trim_start())?)?;
    spelled(alloc, "union:", both.items())
}

fn spelled(alloc: Global, word: &str, ids: &[u32]) -> Result<Vec<u8>, NoMemory> {
    let mut out = Vec::new(alloc);
    push_bytes(&mut out, word.as_bytes())?;
    for id in ids {
        push_bytes(&mut out, b" ")?;
        push_number(&mut out, *id)?;
    }
    Ok(out)
}

// Names, and their numbers by first occurrence.
const NUMBERED: &str = "
a b a c -> numbers: 0 1 0 2
b -> numbers: 0
";

#[test]
fn numbers_names_by_their_first_occurrence(rt: HostRuntime) -> Result<(), Fail> {
    check_table(rt.alloc(), NUMBERED, numbered)
}

fn numbered(alloc: Global, row: &str) -> Result<Vec<u8>, NoMemory> {
    let mut names = Names::new(alloc);
    let mut numbers = Vec::new(alloc);
    for name in row.split_whitespace() {
        if !name.is_empty() && name.len() <= 32 && names.len() < 100 {
            numbers.push(names.number(name.as_bytes())?)?;
        }
    }
    spelled(alloc, "numbers:", &numbers)
}

// A text, a 64-bit number and a 128-bit number, appended one after another.
const APPENDED: &str = "
n 4294967295 -20 -170141183460469231731687303715884105728 -> n 4294967295 -20 -170141183460469231731687303715884105728
";

#[test]
fn appends(rt: HostRuntime) -> Result<(), Fail> {
    check_table(rt.alloc(), APPENDED, appended)
}

fn appended(alloc: Global, row: &str) -> Result<Vec<u8>, NoMemory> {
    let mut out = Vec::new(alloc);
    push_bytes(&mut out, field(row, 0).as_bytes())?;
    push_bytes(&mut out, b" ")?;
    push_number(&mut out, number(row, 1))?;
    push_bytes(&mut out, b" ")?;
    push_number(&mut out, field(row, 2).parse::<i64>().unwrap_or(0))?;
    push_bytes(&mut out, b" ")?;
    push_number(&mut out, field(row, 3).parse::<i128>().unwrap_or(0))?;
    Ok(out)
}
