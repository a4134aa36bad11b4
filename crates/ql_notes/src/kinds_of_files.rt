// What kind of file a text looks like, for files that were given in each other's place.

use crate::place::line_of;
use crate::text::Text;
use crate::words::{is, is_line_start, row, word_of};
use ql_reply::Part;

// By the first word of a file.
const FIRST_WORDS: &str = "type a source
transaction a source
replicas a schedule without its first line, `quelea schedule 1`
object a schedule without its first lines, `quelea schedule 1` and `replicas N`
call a schedule without its first lines
execution an execution
levels the text of a run, in which an execution follows
effect an execution without its first line, `execution`
contract a file of `holds`
variables a proof
op a stored answer, or a certificate without its first line
txn a stored answer, or a certificate without its first line
none a stored answer";

// What a part of the input should be.
const PARTS: &str = "source a source
schedule a schedule
execution an execution
certificate a certificate
proof a proof
holds a file of `holds`
baseline a stored answer";

/// Appends which kind of file a text looks like, where that is another one than it is read as.
pub(crate) fn push_kind_of_file(note: &mut Text, text: &[u8], part: Part) {
    let line = first_line(text);
    let found = if !is(word_of(line, 0), b"quelea") {
        row(FIRST_WORDS, word_of(line, 0))
    } else if is(word_of(line, 1), b"schedule") {
        b"a schedule".as_slice()
    } else {
        b"a certificate".as_slice()
    };
    let wanted = row(PARTS, part.name().as_bytes());
    if found.is_empty() || found == wanted || matches!(part, Part::Baseline) {
        return;
    }
    note.push(b"  this looks like ");
    note.push(found);
    if !found.starts_with(wanted) {
        note.push(b", but ");
        note.push(wanted);
        note.push(b" is expected: were the files given in another order?");
    }
    note.push(b"\n");
}

// The first line that is neither blank nor a comment.
fn first_line(text: &[u8]) -> &[u8] {
    for k in 0..text.len() {
        if is_line_start(text, k) {
            let line = line_of(&text[k..]);
            let first = word_of(line, 0);
            if !first.is_empty() && !first.starts_with(b"#") {
                return line;
            }
        }
    }
    b""
}
