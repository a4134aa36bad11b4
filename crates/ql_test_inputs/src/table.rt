use ql_base::NoMemory;
use std::alloc::{AllocError, Global};
use std::test::Fail;

/// Fails at the first row whose question isn't answered as stated after its arrow.
///
/// Empty lines are skipped. A control character of a row is written as its picture: `␊` for a line feed.
pub fn check_table<F: FnMut(Global, &str) -> Result<Vec<u8>, NoMemory>>(
    alloc: Global,
    table: &str,
    mut answer: F,
) -> Result<(), Fail>
    requires { (state : F) (memory : _) (question : _) → F.pre state memory question }
{
    for line in table.lines() {
        if !line.is_empty() {
            check_row(alloc, line, &mut answer)?;
        }
    }
    Ok(())
}

fn check_row<F: FnMut(Global, &str) -> Result<Vec<u8>, NoMemory>>(
    alloc: Global,
    line: &str,
    answer: &mut F,
) -> Result<(), Fail>
    requires { (state : F) (memory : _) (question : _) → F.pre state memory question }
{
    let row = with_controls(alloc, line)?;
    let (question, expected) = row.as_str().split_once(" -> ").unwrap_or((line, "?"));
    match answer(alloc, question) {
        Ok(found) if found.as_slice() == expected.as_bytes() => Ok(()),
        Ok(found) => Err(difference(alloc, line, &found)?),
        Err(NoMemory) => Err(Fail::new(format_args!("out of memory\n  for the row {line}"))),
    }
}

fn difference(alloc: Global, line: &str, found: &[u8]) -> Result<Fail, AllocError> {
    let found = String::from_utf8_lossy(alloc, found)?;
    Ok(Fail::new(format_args!("{found}\n  for the row {line}")))
}

fn with_controls(alloc: Global, line: &str) -> Result<String, AllocError> {
    let mut text = String::new(alloc);
    for letter in line.chars() {
        text.push(pictured(letter))?;
    }
    Ok(text)
}

fn pictured(letter: char) -> char {
    match letter {
        '␀' => '\0',
        '␉' => '\t',
        '␊' => '\n',
        '␍' => '\r',
        '␡' => '\x7f',
        other => other,
    }
}
