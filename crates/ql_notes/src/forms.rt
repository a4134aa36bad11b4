// The forms of lines, and where a line deviates from them.
//
// A form is a row of words, as in docs/FILES.md: capitals stand for what is to be filled in, and two dots after them
// for any number of it.

use crate::kinds_of_files::push_kind_of_file;
use crate::lexical::BYTE_ORDER_MARK;
use crate::lines::{Above, Line};
use crate::place::line_of;
use crate::syntax::push_found;
use crate::text::Text;
use crate::words::{has_word, is, is_line_start, line_with, row, word, word_of};
use ql_base::{digit_bytes, is_name, number_of};
use ql_reply::Part;

/// Appends a note on a line that doesn't have its form: what it has there, and what was expected.
pub(crate) fn push_form_fault(note: &mut Text, line: &Line) {
    let forms = forms_at(line);
    let misfit = find_misfit(forms, line);
    let spot = line.spot(misfit.field);
    note.begin_fault(line.file, spot, line.rule.name());
    note.push(sentence(line, forms, misfit));
    note.end_fault(line.file, spot);
    if is_descent(line, misfit) {
        note.push_filled(
            b"  the effects that it sees must be in ascending order: `%` comes too late\n",
            &[line.field(misfit.field)],
        );
    } else if !forms.is_empty() {
        push_found(note, line.field(misfit.field), !line.fields.is_empty());
        if misfit.is_choice && misfit.form.contains(&b'\n') {
            push_first_words(note, misfit.form, next_effect(line));
        } else {
            push_next_words(note, misfit.form, next_effect(line));
        }
        note.push(b"\n");
    }
    if line.counts.lines == 0 {
        push_kind_of_file(note, line.file.text, line.part);
    }
}

// What is wrong with a line that deviates from some forms.
fn sentence(line: &Line, forms: &[u8], misfit: Misfit) -> &'static [u8] {
    if line.counts.lines == 0 && line.file.text.starts_with(BYTE_ORDER_MARK) {
        b"a byte order mark isn't allowed: save the file as UTF-8 without one"
    } else if forms.is_empty() && matches!(line.part, Part::Execution) {
        b"the line `end` above ends the execution, and one is read: copy the lines from another `execution` to its `end` into a file of their own"
    } else if forms.is_empty() {
        b"the line `end` above ends the file: only comments may follow it"
    } else if is(forms, b"execution") {
        b"the file ends here, but the line `execution` is missing before the first effect"
    } else if line.start == line.file.text.len() && forms.ends_with(b"end") {
        b"the file ends here, but the line `end` is missing"
    } else if line.start == line.file.text.len() {
        b"the file ends here"
    } else if line.begins(b"join") && misfit.is_choice {
        b"replicas join only in a schedule of version 2, whose first line is `quelea schedule 2`"
    } else if line.field(misfit.field).contains(&b'\t') {
        b"a tab doesn't separate fields: use spaces"
    } else {
        b"this line doesn't have the right form, or isn't allowed here"
    }
}

// Whether a line deviates from its form by an effect that it sees and that isn't in ascending order.
fn is_descent(line: &Line, misfit: Misfit) -> bool {
    is(word(misfit.form).0, b"SEEN..")
        && !line.field(misfit.field).is_empty()
        && line.number(misfit.field) > 0
}

// Appends the first words of the forms that a line may have.
fn push_first_words(note: &mut Text, forms: &[u8], next: u64) {
    let count = forms.iter().filter(|byte| **byte == b'\n').count();
    let mut number = 0usize;
    for k in 0..forms.len() {
        if is_line_start(forms, k) {
            note.push_separator(number, count.saturating_add(1));
            push_word(note, word(&forms[k..]).0, next);
            number = number.saturating_add(1);
        }
    }
}

// Appends what comes next in a form: its next word, and the one after it if the first stands for itself.
fn push_next_words(note: &mut Text, form: &[u8], next: u64) {
    let (first, rest) = word(form);
    let second = word(rest).0;
    if stands_for_itself(first) && stands_for_itself(second) && !second.is_empty() {
        return note.push_filled(b"`% %`", &[first, second]);
    }
    push_word(note, first, next);
    if first.ends_with(b"..") && !second.is_empty() {
        note.push(b" or ");
        push_word(note, second, next)
    } else if stands_for_itself(first) && !stands_for_itself(second) {
        note.push(b" and ");
        push_word(note, second, next)
    }
}

fn push_word(note: &mut Text, wanted: &[u8], next: u64) {
    if wanted.is_empty() {
        note.push(b"nothing more")
    } else if is(wanted, b"NEXT") {
        note.push_counted(b"the next effect's number, #", &[], &[next])
    } else if stands_for_itself(wanted) {
        note.push_filled(b"`%`", &[wanted])
    } else {
        note.push(row(MEANINGS, wanted))
    }
}

const OF_EVENTS: &str = "call DIGITS at DIGITS NAME NAME ARGUMENT..
begin DIGITS at DIGITS NAME NAME NAME..
commit DIGITS at DIGITS
deliver DIGITS
repeat DIGITS
lose DIGITS
resend DIGITS from DIGITS to DIGITS
partition DIGITS..
heal
join JOIN DIGITS";

const OF_EFFECTS: &str =
    "effect NEXT NAME NAME VALUES = VALUE emit PAYLOAD session SESSION txn TXN stamp NUMBER vis SEEN..
end";

const OF_SECTIONS: &str = "op NAME OP_LEVEL
txn NAME TXN_LEVEL
NUMBER LITERAL.. : HINT..
end";

// The forms that a line may have, each on a line.
fn forms_at(line: &Line) -> &'static [u8] {
    let forms = forms(line.part, line.counts).as_bytes();
    let first = line_with(line.above, b"quelea", 1, b"schedule");
    if is(word_of(first, 2), b"1") {
        forms.strip_suffix(b"\njoin JOIN DIGITS").unwrap_or(forms)
    } else {
        forms
    }
}

// The same, depending on the lines above.
fn forms(part: Part, above: Above) -> &'static str {
    if above.is_ended {
        return "";
    }
    match (part, above.lines) {
        (Part::Schedule, 0) => "quelea schedule VERSION",
        (Part::Schedule, 1) => "replicas DIGITS",
        (Part::Schedule, _) if above.has_events => OF_EVENTS,
        (Part::Schedule, _) => "object NAME NAME\nevents",
        (Part::Execution, 0) => "execution",
        (Part::Execution, _) => OF_EFFECTS,
        (Part::Holds, 0) => "contract CONTRACT..",
        (Part::Holds, 1) => "at NUMBER",
        (Part::Holds, _) => "effect NEXT NAME NAME session SESSION vis SEEN..\nend",
        (Part::Certificate, 0) => "quelea certificate 1",
        (Part::Certificate, 1) => "op NAME OP_LEVEL\ntxn NAME TXN_LEVEL\nend",
        (Part::Certificate, _) => OF_SECTIONS,
        (Part::Proof, 0) => "variables NUMBER",
        (Part::Proof, _) if above.numbered > 0 => "NUMBER LITERAL.. : HINT..\nend",
        (Part::Proof, _) => "c LITERAL..\nNUMBER LITERAL.. : HINT..\nend",
        _ => "op NAME OP_LEVEL\ntxn NAME TXN_LEVEL\nnone TARGET NAME",
    }
}

// Where a line deviates from its form: the index of the field, and the rest of the form there. Where no form begins as
// the line does, all the forms.
#[derive(Clone, Copy)]
struct Misfit {
    field: usize,
    form: &'static [u8],
    is_choice: bool,
}

// Where a line deviates from the forms that it may have.
fn find_misfit(forms: &'static [u8], line: &Line) -> Misfit {
    for k in 0..forms.len() {
        if is_line_start(forms, k) {
            let form = line_of(&forms[k..]);
            if fits(word(form).0, line.field(0), line) {
                return misfit_of(form, line);
            }
        }
    }
    Misfit {
        field: 0,
        form: forms,
        is_choice: true,
    }
}

fn misfit_of(form: &'static [u8], line: &Line) -> Misfit {
    let mut form = form;
    let mut last = 0;
    for (k, field) in line.fields.iter().enumerate() {
        let (first, after) = word(form);
        let is_list = first.ends_with(b"..");
        let is_ascending = !is(first, b"SEEN..") || line.number(k) > last;
        last = line.number(k);
        // A list ends where the word after it fits.
        if is_list && word(after).0 == field.text {
            form = word(after).1;
        } else if !fits(first, field.text, line) || !is_ascending {
            return Misfit {
                field: k,
                form,
                is_choice: false,
            };
        } else if !is_list {
            form = after;
            last = 0;
        }
    }
    Misfit {
        field: line.fields.len(),
        form,
        is_choice: false,
    }
}

// What the words of forms stand for.
const MEANINGS: &str =
    "NAME a name: a lower-case letter, then lower-case letters, digits or `_`, and no keyword
NUMBER a number
DIGITS a number
SESSION a session from 0 to 255
VALUES arguments in brackets, such as `(1, \"a\")`
VALUE an answer, such as `unit`, `5` or `\"a\"`
PAYLOAD `-`, or the emitted values in brackets
TXN `-`, or a transaction such as `1:audit`
SEEN.. the effects that it sees, in ascending order
LITERAL.. a variable's number, with `-` before it to negate it
HINT.. a hint, such as `c1` or `l1`
OP_LEVEL `eventual`, `causal`, `wide` or `strong`
TXN_LEVEL `rc`, `mav` or `rr`
ARGUMENT.. a number, `true`, `false` or a text in quotes
DIGITS.. a number
NAME.. a name
JOIN `copy` or `bare`
TARGET `op` or `txn`
VERSION `1` or `2`
CONTRACT.. a contract";

// The words that a word of a form allows.
const LISTED: &str = "OP_LEVEL eventual causal wide strong
TXN_LEVEL rc mav rr
JOIN copy bare
TARGET op txn
VERSION 1 2";

// Whether a word of a form stands for itself: it doesn't begin with a capital.
fn stands_for_itself(wanted: &[u8]) -> bool {
    match wanted.first() {
        Some(byte) => *byte < b'A' || b'Z' < *byte,
        None => true,
    }
}

fn next_effect(line: &Line) -> u64 {
    line.counts.effects.saturating_add(1)
}

// Whether a field of a line fits a word of a form.
fn fits(wanted: &[u8], field: &[u8], line: &Line) -> bool {
    if field.is_empty() || wanted.is_empty() {
        false
    } else if stands_for_itself(wanted) {
        wanted == field
    } else if is(wanted, b"NEXT") {
        number_of(field, u32::MAX as u64) == Some(next_effect(line))
    } else if is(wanted, b"SESSION") {
        number_of(field, 255).is_some()
    } else if has_word(b"NUMBER SEEN..", wanted) {
        number_of(field, u32::MAX as u64).is_some()
    } else if has_word(b"DIGITS DIGITS..", wanted) {
        digit_bytes(field) == field.len()
    } else if has_word(b"NAME NAME..", wanted) {
        is_name(field)
    } else {
        fits_text(wanted, field)
    }
}

fn fits_text(wanted: &[u8], field: &[u8]) -> bool {
    if is(wanted, b"VALUES") {
        is_bracketed(field)
    } else if is(wanted, b"PAYLOAD") {
        is(field, b"-") || is_bracketed(field)
    } else if is(wanted, b"TXN") {
        is(field, b"-") || is_transaction(field)
    } else if is(wanted, b"VALUE") || is(wanted, b"ARGUMENT..") {
        is_value(field)
    } else if is(wanted, b"LITERAL..") {
        number_of(field.strip_prefix(b"-").unwrap_or(field), u32::MAX as u64).is_some()
    } else if is(wanted, b"HINT..") {
        match field.strip_prefix(b"c").or(field.strip_prefix(b"l")) {
            Some(number) => digit_bytes(number) == number.len(),
            None => false,
        }
    } else {
        let words = row(LISTED, wanted);
        words.is_empty() || has_word(words, field)
    }
}

// Whether a field is in parentheses, with spaces only after commas and colons.
fn is_bracketed(field: &[u8]) -> bool {
    field.starts_with(b"(") && field.ends_with(b")") && !has_stray_space(field)
}

// Whether there is a space outside quotes that follows neither a comma nor a colon.
fn has_stray_space(field: &[u8]) -> bool {
    let mut is_quoted = false;
    let mut last = b',';
    for byte in field {
        if *byte == b' ' && !is_quoted && !matches!(last, b',' | b':') {
            return true;
        }
        is_quoted ^= *byte == b'"';
        last = *byte;
    }
    false
}

// Whether a field begins as a value does, and ends as one if it is a text, a set or a map.
fn is_value(field: &[u8]) -> bool {
    match field.first() {
        Some(b'"') => field.len() > 1 && field.ends_with(b"\""),
        Some(b'{') => field.ends_with(b"}") && !has_stray_space(field),
        Some(byte) => has_word(b"unit true false", field) || matches!(*byte, b'-' | b'0'..=b'9'),
        None => false,
    }
}

// NUMBER:NAME
fn is_transaction(field: &[u8]) -> bool {
    match field.iter().position(|byte| *byte == b':') {
        Some(at) if at < field.len() => number_of(&field[..at], u32::MAX as u64).is_some()
            && is_name(&field[at + 1..]),
        _ => false,
    }
}
