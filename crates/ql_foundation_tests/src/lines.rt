use ql_base::{NoMemory, push_bytes, push_number};
use ql_lines::{Lines, after_name, after_number, after_word, ascending_ids, first_field};
use ql_test_inputs::check_table;
use std::alloc::Global;
use std::test::Fail;

// Files with their lines that aren't blank or comments, as number and fields, and the line number of the end.
const FILES: &str = "
 -> end 1
␊ -> end 2
a -> 1 a; end 2
a␊ -> 1 a; end 2
a␊␊ -> 1 a; end 3
a␍␊b␍ -> 1 a; 2 b␍; end 3
a␍␍␊ -> 1 a␍; end 2
␍a␊ -> 1 ␍a; end 2
␍␊ -> end 2
␍ -> 1 ␍; end 2
  a  b ␊# c␊  #d␊␉e␊ -> 1 a b; 4 ␉e; end 5
a#b␊#␊␊␊c -> 1 a#b; 5 c; end 6
";

#[test]
fn lines_that_tell_something(rt: HostRuntime) -> Result<(), Fail> {
    check_table(rt.alloc(), FILES, lines)
}

fn lines(alloc: Global, file: &str) -> Result<Vec<u8>, NoMemory> {
    let mut out = Vec::new(alloc);
    let mut lines = Lines::of(file.as_bytes());
    for _ in 0..file.len() {
        let Some(line) = lines.next_line() else { break };
        push_number(&mut out, line.number)?;
        push_fields(&mut out, line.text)?;
        push_bytes(&mut out, b"; ")?;
    }
    push_bytes(&mut out, b"end ")?;
    push_number(&mut out, lines.end())?;
    Ok(out)
}

fn push_fields(out: &mut Vec<u8>, text: &[u8]) -> Result<(), NoMemory> {
    let mut rest = text;
    for _ in 0..text.len() {
        let Some((field, remaining)) = first_field(rest) else {
            break;
        };
        push_bytes(out, b" ")?;
        push_bytes(out, field)?;
        rest = remaining;
    }
    Ok(())
}

// Texts with the ids that they spell.
const IDS: &str = "
 -> ids
  1 2   10 -> ids 1 2 10
0 4294967295 -> ids 0 4294967295
4294967296 -> none
1 1 -> none
2 1 -> none
01 -> none
1 x -> none
1 2 # 3 -> none
";

#[test]
fn ids_of_a_text(rt: HostRuntime) -> Result<(), Fail> {
    check_table(rt.alloc(), IDS, ids)
}

fn ids(alloc: Global, text: &str) -> Result<Vec<u8>, NoMemory> {
    match ascending_ids(alloc, text.as_bytes())? {
        Some(ids) => spelled(alloc, ids.items()),
        None => Ok(Vec::from_slice(alloc, b"none")?),
    }
}

fn spelled(alloc: Global, ids: &[u32]) -> Result<Vec<u8>, NoMemory> {
    let mut out = Vec::from_slice(alloc, b"ids")?;
    for id in ids {
        push_bytes(&mut out, b" ")?;
        push_number(&mut out, *id)?;
    }
    Ok(out)
}

// What a text has to begin with, the text, and what comes after that field.
const BEGINNINGS: &str = "
word   vis 1 -> [ 1]
word visit 1 -> none
word  -> none
name x y -> [ y]
name forall y -> none
byte 255 x -> [ x]
byte 256 x -> none
";

#[test]
fn what_a_text_begins_with(rt: HostRuntime) -> Result<(), Fail> {
    check_table(rt.alloc(), BEGINNINGS, after_field)
}

fn after_field(alloc: Global, row: &str) -> Result<Vec<u8>, NoMemory> {
    let (what, text) = row.split_once(' ').unwrap_or((row, ""));
    let Some(remaining) = after_first(what, text.as_bytes()) else {
        return Ok(Vec::from_slice(alloc, b"none")?);
    };
    let mut out = Vec::from_slice(alloc, b"[")?;
    push_bytes(&mut out, remaining)?;
    push_bytes(&mut out, b"]")?;
    Ok(out)
}

fn after_first<'a>(what: &str, text: &'a [u8]) -> Option<&'a [u8]> {
    match what {
        "word" => after_word(text, b"vis"),
        "name" => after_name(text).map(|(_, remaining)| remaining),
        _ => after_number(text, 255).map(|(_, remaining)| remaining),
    }
}
