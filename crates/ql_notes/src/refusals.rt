// Notes on a certificate or a proof that is refused: the section, the line, and what can be done.

use crate::excerpt::{File, Spot};
use crate::pieces::{nth_of, piece_after};
use crate::place::line_of;
use crate::sources::Reading;
use crate::text::Text;
use crate::words::{has_word, is, is_line_start, row, without_return, word_of};
use ql_base::number_of;
use ql_reply::{Refused, Rule};

// Sentences by the rule for which a section is refused.
const REFUSALS: &str = "BadVariable this line uses a variable that isn't in the clauses
BadHint a hint of this line names a clause that doesn't exist, or a line that isn't earlier
NotUnit a hint of this line names a clause that leaves more than one literal open, or is already true
NoConflict the hints don't lead to a contradiction: one is missing at the end, or one is wrong
NoEmpty no line is the empty clause, so nothing is refuted: a last line without literals, NUMBER : HINTS, is missing";

/// Appends a note on a refused certificate or proof.
pub(crate) fn push_refusal(note: &mut Text, file: File, source: &Reading, refused: Refused) {
    let first = section_spot(file.text, refused.section.unwrap_or(0) as u64);
    let section = line_at(file.text, first.from);
    let spot = refused_spot(file.text, first, refused);
    note.begin_fault(file, spot, refused.rule.name());
    if refused.section.is_some() {
        note.push_filled(
            b"section `% % %`",
            &[
                word_of(section, 0),
                word_of(section, 1),
                word_of(section, 2),
            ],
        );
        note.push(if refused.line.is_some() { b", " } else { b": " });
    }
    if let Some(line) = refused.line {
        note.push_counted(b"line #: ", &[], &[line]);
    }
    note.push(row(REFUSALS, refused.rule.name().as_bytes()));
    note.end_fault(file, spot);
    if refused.section.is_none() {
        return;
    }
    if matches!(
        refused.rule,
        Rule::NotUnit | Rule::NoConflict | Rule::NoEmpty
    ) && !has_word(b"strong rr", word_of(section, 2))
    {
        note.push_filled(
            b"  the level may be too low: `./quelea classify %` prints the least levels that are enough\n",
            &[source.file.name],
        );
    }
    push_remedy(note, source);
}

/// Appends a note on a section that isn't where the order of the source has it.
pub(crate) fn push_order(note: &mut Text, file: File, source: &Reading, number: u32) {
    let spot = section_spot(file.text, number as u64);
    let index = number.saturating_sub(1) as u64;
    let ops = source
        .pieces
        .iter()
        .filter(|token| **token == b"op".as_slice())
        .count() as u64;
    let (sort, found): (&[u8], Option<usize>) = if index < ops {
        (b"op", nth_of(source.pieces, b"op", index))
    } else {
        (
            b"txn",
            nth_of(source.pieces, b"transaction", index.saturating_sub(ops)),
        )
    };
    note.begin_fault(file, spot, "order");
    match found {
        Some(k) => note.push_counted(
            b"sections follow the order of the source, so section # must be that of `% %`",
            &[sort, piece_after(source.pieces, k)],
            &[number as u64],
        ),
        None => note.push_counted(
            b"sections follow the order of the source, and section # is one too many",
            &[],
            &[number as u64],
        ),
    }
    note.end_fault(file, spot);
    push_remedy(note, source);
}

fn push_remedy(note: &mut Text, source: &Reading) {
    note.push_filled(
        b"  the certificate or the source may have been changed: `./quelea prove %` prints a new certificate\n",
        &[source.file.name],
    );
}

// The first line of the section with a number, or the line `end`; the file's first line for number 0.
fn section_spot(text: &[u8], number: u64) -> Spot {
    let mut count = 0u64;
    for k in 0..text.len() {
        if is_line_start(text, k) {
            let first = word_of(line_of(&text[k..]), 0);
            count = count.saturating_add(has_word(b"op txn end", first) as u64);
            if count == number || is(first, b"end") {
                return whole_line(text, k);
            }
        }
    }
    whole_line(text, text.len())
}

// The refused line: a numbered line after the first line of its section; or that line, or of a proof the line `end`.
fn refused_spot(text: &[u8], first: Spot, refused: Refused) -> Spot {
    if refused.section.is_some() && refused.line.is_none() {
        return first;
    }
    for k in first.from..text.len() {
        if is_line_start(text, k) {
            let word = word_of(line_of(&text[k..]), 0);
            let is_refused = match refused.line {
                Some(line) => number_of(word, u64::MAX) == Some(line),
                None => is(word, b"end"),
            };
            if is_refused {
                return whole_line(text, k);
            }
        }
    }
    whole_line(text, text.len())
}

/// The line that begins at an offset.
pub(crate) fn line_at(text: &[u8], start: usize) -> &[u8] {
    without_return(line_of(text.get(start..).unwrap_or(b"")))
}

/// The bytes of the line that begins at an offset.
pub(crate) fn whole_line(text: &[u8], start: usize) -> Spot {
    Spot {
        from: start,
        bytes: line_at(text, start).len(),
    }
}
