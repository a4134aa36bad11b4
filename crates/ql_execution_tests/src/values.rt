use ql_base::{NoMemory, push_bytes, push_number};
use ql_test_inputs::{check_table, spelled};
use ql_value::{ValueFault, order, parse_value, print_value};
use std::alloc::Global;
use std::cmp::Ordering;
use std::test::Fail;

// Texts, and the offset after the value that is read with the value's text, or the offset of the first fault; from an
// independent implementation.
const READ: &str = r#"
unit -> 4 unit
unity -> 4 unit
uni -> fault 3
un1t -> fault 2
0 -> 1 0
00 -> fault 0
-0 -> fault 0
- -> fault 1
-1 -> 2 -1
--1 -> fault 1
7x -> 1 7
9223372036854775807 -> 19 9223372036854775807
9223372036854775808 -> fault 0
-9223372036854775808 -> 20 -9223372036854775808
-9223372036854775809 -> fault 0
12345678901234567890123 -> fault 0
true -> 4 true
tru -> fault 3
trve -> fault 2
false -> 5 false
 -> fault 0
 1 -> fault 0
+1 -> fault 0
"" -> 2 ""
"a b" -> 5 "a b"
"a -> fault 2
"a\" -> fault 2
"␡" -> fault 1
"xxxxxxxxxxxxxxxxxxxxxxxxxxxxxxxxxxxxxxxxxxxxxxxxxxxxxxxxxxxxxxxx" -> 66 "xxxxxxxxxxxxxxxxxxxxxxxxxxxxxxxxxxxxxxxxxxxxxxxxxxxxxxxxxxxxxxxx"
"xxxxxxxxxxxxxxxxxxxxxxxxxxxxxxxxxxxxxxxxxxxxxxxxxxxxxxxxxxxxxxxxx" -> fault 0
"xxxxxxxxxxxxxxxxxxxxxxxxxxxxxxxxxxxxxxxxxxxxxxxxxxxxxxxxxxxxxxxxx -> fault 0
{} -> 2 {}
{:} -> 3 {:}
{: -> fault 2
{ } -> fault 1
{1} -> 3 {1}
{1, 2} -> 6 {1, 2}
{1,2} -> 5 {1, 2}
{1,   2} -> 8 {1, 2}
{1 ,2} -> fault 2
{2, 1} -> fault 4
{1, 1} -> fault 4
{1, true, "a"} -> 14 {1, true, "a"}
{"a", 1} -> fault 6
{false, true} -> 13 {false, true}
{1, } -> fault 4
{1 -> fault 2
{1, -> fault 3
{1 2} -> fault 2
{"a": 1} -> 8 {"a": 1}
{"a":1,"b":2} -> 13 {"a": 1, "b": 2}
{"a":   1} -> 10 {"a": 1}
{"b": 1, "a": 2} -> fault 9
{"a": 1, "a": 2} -> fault 9
{"a" : 1} -> fault 4
{1: 2, 3} -> fault 8
{1, 2: 3} -> fault 5
{1: } -> fault 4
{{}} -> fault 1
{unit} -> fault 1
{-1: true, "": "x"} -> 19 {-1: true, "": "x"}
{"B", "a"}x -> 10 {"B", "a"}
{01} -> fault 1
{1, 9223372036854775808} -> fault 4
{-5, -4} -> 8 {-5, -4}
"#;

#[test]
fn values_or_the_first_fault(rt: HostRuntime) -> Result<(), Fail> {
    check_table(rt.alloc(), READ, read)
}

fn read(alloc: Global, text: &str) -> Result<Vec<u8>, NoMemory> {
    match parse_value(alloc, text.as_bytes(), 0) {
        Ok((value, to)) => {
            let mut out = Vec::new(alloc);
            push_number(&mut out, to)?;
            push_bytes(&mut out, b" ")?;
            print_value(&mut out, &value)?;
            Ok(out)
        }
        Err(ValueFault::Unexpected(at)) => {
            let mut out = spelled(alloc, "fault ")?;
            push_number(&mut out, at)?;
            Ok(out)
        }
        Err(ValueFault::NoMemory) => Err(NoMemory),
    }
}

// Values are ordered by kind and content.
const ORDERED: &str = r#"
unit ~ -9223372036854775808 -> less
9223372036854775807 ~ false -> less
true ~ false -> greater
true ~ "" -> less
"" ~ "" -> equal
"#;

#[test]
fn values_are_ordered_by_kind_and_content(rt: HostRuntime) -> Result<(), Fail> {
    check_table(rt.alloc(), ORDERED, ordered)
}

fn ordered(alloc: Global, row: &str) -> Result<Vec<u8>, NoMemory> {
    let (left, right) = row.split_once(" ~ ").unwrap_or((row, ""));
    let (Ok((left, _)), Ok((right, _))) = (
        parse_value(alloc, left.as_bytes(), 0),
        parse_value(alloc, right.as_bytes(), 0),
    ) else {
        return spelled(alloc, "no values");
    };
    spelled(
        alloc,
        match order(&left, &right) {
            Ordering::Less => "less",
            Ordering::Equal => "equal",
            Ordering::Greater => "greater",
        },
    )
}
