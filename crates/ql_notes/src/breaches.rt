// What is wrong with a line that has its form: the field that breaks a rule, why, and what would be right there.

use crate::arguments::{is_too_great, misfit, push_misfit, push_operation};
use crate::effects::{other_seen, push_mixed, push_other_object, push_split, right_stamp};
use crate::lines::{Line, counts_of};
use crate::pieces::{Span, anywhere, next_of};
use crate::place::line_of;
use crate::text::Text;
use crate::words::{
    find_line, has_word, is, is_among, is_line_start, row, without_blanks, word, word_of,
};
use ql_base::{NoMemory, number_of};
use ql_reply::{Part, Rule};
use std::alloc::Global;

// The first field of a line `begin` that is an object.
const BEGIN_OBJECT: usize = 5;

/// Appends a note on a line that has its form, but breaks another rule.
pub(crate) fn push_breach(alloc: Global, note: &mut Text, line: &Line) -> Result<(), NoMemory> {
    let k = column(alloc, line)?;
    let spot = line.spot(k);
    note.begin_fault(line.file, spot, line.rule.name());
    push_sentence(note, line, k);
    note.end_fault(line.file, spot);
    match line.rule {
        Rule::Stamp => note.push_counted(b"  the right stamp is #\n", &[], &[right_stamp(line)]),
        Rule::Number => note.push_counted(
            b"  the next number is #\n",
            &[],
            &[line.counts.numbered.saturating_add(1)],
        ),
        Rule::Kind => push_operation(note, line),
        Rule::Twice => push_first(note, line, k),
        Rule::Unknown => note.push_known(&known(alloc, line, k)?),
        _ => {}
    }
    Ok(())
}

// The index of the field that breaks the rule.
fn column(alloc: Global, line: &Line) -> Result<usize, NoMemory> {
    Ok(match (line.rule, line.part) {
        (Rule::Unknown, _) => unknown(alloc, line)?,
        (Rule::Kind, _) => misfit(line),
        (Rule::Range, Part::Schedule) => out_of_range(line),
        (Rule::Range, _) => 1,
        (Rule::Twice, _) => twice(line),
        (Rule::NotForward, _) => not_earlier(line),
        (Rule::OtherObject, _) => other_seen(line).0,
        (Rule::Mixed, _) => 3,
        (Rule::SplitTxn, _) => 12,
        (Rule::Stamp, _) => 14,
        _ => 0,
    })
}

// Appends what is wrong with a field of a line.
fn push_sentence(said: &mut Text, line: &Line, k: usize) {
    match line.rule {
        Rule::Unknown => said.push_filled(
            row(UNKNOWN, sort_of(line, k)),
            &[name_in(line.field(k))],
        ),
        Rule::Kind => push_misfit(said, line, k),
        Rule::Range => push_range(said, line, k),
        Rule::NotForward => push_not_earlier(said, line),
        Rule::OtherObject => push_other_object(said, line),
        Rule::Mixed => push_mixed(said, line),
        Rule::SplitTxn => push_split(said, line),
        Rule::TooMany if matches!(line.part, Part::Schedule) => said.push(limit(line)),
        rule => said.push(row(RULES, rule.name().as_bytes())),
    }
}

// Rules that one sentence explains.
const RULES: &str =
    "Stamp a stamp is one more than the greatest stamp among the effects that this one sees and the earlier ones of its session
TooMany a file has at most 4000 effects, and this is one too many
Number lines are numbered consecutively, and this isn't the next number
Twice the object is already declared or listed";

// Which limit of a schedule a line exceeds.
fn limit(line: &Line) -> &'static [u8] {
    if line.begins(b"object") {
        b"a schedule has at most 1024 objects, and this is one too many"
    } else if line.begins(b"join") {
        b"a store has at most 16 replicas, and this is one too many"
    } else if line.begins(b"begin") && line.fields.len() > BEGIN_OBJECT + 16 {
        b"a transaction declares at most 16 objects, and this one declares more"
    } else {
        b"a schedule has at most 4000 events, and this is one too many"
    }
}

// What the names in a line stand for, by its first word, from the second field on.
const NAMES: &str = "object . type
begin . . . transaction object
call . . . object op
effect . . op . . . . . . . . transaction";

// What is wrong with an unknown name, by what it stands for.
const UNKNOWN: &str = "type `%` isn't a type of the source
op `%` isn't an operation of the source
transaction `%` isn't a transaction of the source
object no line `object` declares `%`";

// What a field stands for; empty where it isn't a name.
fn sort_of(line: &Line, k: usize) -> &'static [u8] {
    let k = if line.begins(b"begin") {
        k.min(BEGIN_OBJECT)
    } else {
        k
    };
    word_of(row(NAMES, line.field(0)), k.saturating_sub(1))
}

// The name in a field: of a begun transaction the part after the colon.
fn name_in(field: &[u8]) -> &[u8] {
    match field.iter().position(|byte| *byte == b':') {
        Some(at) if at < field.len() => &field[at + 1..],
        _ => field,
    }
}

// The first field with a name that isn't declared.
fn unknown(alloc: Global, line: &Line) -> Result<usize, NoMemory> {
    let objects = objects(alloc, line)?;
    for k in 1..line.fields.len() {
        let (sort, name) = (sort_of(line, k), name_in(line.field(k)));
        let is_known = if is(sort, b"object") {
            is_among(&objects, name)
        } else {
            is(name, b"-")
                || !has_word(b"type op transaction", sort)
                || anywhere(line.source, sort)
                    .find(line.source, name)
                    .is_some()
        };
        if !is_known {
            return Ok(k);
        }
    }
    Ok(0)
}

// The objects that the lines above declare.
fn objects<'a>(alloc: Global, line: &Line<'a>) -> Result<Vec<&'a [u8]>, NoMemory> {
    let mut names = Vec::new(alloc);
    for k in 0..line.above.len() {
        if is_line_start(line.above, k) && is(word_of(line_of(&line.above[k..]), 0), b"object") {
            names.push(word_of(line_of(&line.above[k..]), 1))?;
        }
    }
    Ok(names)
}

// The names that are allowed in the field at an index: those of the source, or the objects.
fn known<'a>(alloc: Global, line: &Line<'a>, k: usize) -> Result<Vec<&'a [u8]>, NoMemory> {
    let sort = sort_of(line, k);
    if is(sort, b"object") {
        return objects(alloc, line);
    }
    let mut names = Vec::new(alloc);
    let span = if line.begins(b"call") {
        operations(line)
    } else {
        anywhere(line.source, sort)
    };
    span.push_names(&mut names, line.source)?;
    Ok(names)
}

// The operations of the type of a call's object.
fn operations<'x>(line: &Line) -> Span<'x> {
    let all = line.source.len();
    let start = anywhere(line.source, b"type").find(line.source, line.type_of_object());
    let from = start.unwrap_or(all);
    Span {
        from,
        to: next_of(line.source, from, b"type").unwrap_or(all),
        after: b"op",
    }
}

// The greatest numbers in an event, by its first word, from the second field on; R for the last replica.
const GREATEST: &str = "replicas 16
call 255 . R
begin 255 . R
commit 255 . R
deliver 4294967295
repeat 4294967295
lose 4294967295
resend 4294967295 . R . R
join . R";

// What is out of range, by the first word of a line.
const RANGES: &str = "replicas a store has 1 to 16 replicas
partition a group is a number from 0 to 15
deliver a message's number is at most 4294967295
repeat a message's number is at most 4294967295
lose a message's number is at most 4294967295
resend an effect's number is at most 4294967295
call a session is a number from 0 to 255
begin a session is a number from 0 to 255
commit a session is a number from 0 to 255";

// The first field with a number that is out of range, or the line's end where a group is missing.
fn out_of_range(line: &Line) -> usize {
    let (greatest, replicas) = (row(GREATEST, line.field(0)), line.replicas());
    let is_partition = line.begins(b"partition");
    for k in 1..line.fields.len() {
        let bound = word_of(greatest, k.saturating_sub(1));
        let most = if is_partition {
            15
        } else if is(bound, b"R") {
            replicas.saturating_sub(1)
        } else {
            number_of(bound, u32::MAX as u64).unwrap_or(u64::MAX)
        };
        let is_argument = line.begins(b"call") && k > 5;
        let is_wrong = if is_argument {
            is_too_great(line.field(k))
        } else if is_partition || !greatest.is_empty() && most < u64::MAX {
            number_of(line.field(k), most).is_none() || (is_partition && k as u64 > replicas)
        } else {
            false
        };
        if is_wrong {
            return k;
        }
    }
    if is_partition { line.fields.len() } else { 1 }
}

// Appends the range of the number in a field.
fn push_range(said: &mut Text, line: &Line, k: usize) {
    let replicas = line.replicas();
    let groups = line.fields.len().saturating_sub(1) as u64;
    let bound = word_of(row(GREATEST, line.field(0)), k.saturating_sub(1));
    if matches!(line.part, Part::Holds) {
        let effects = counts_of(line.file.text).effects;
        said.push_counted(
            if effects == 0 {
                b"the file has no effects"
            } else {
                b"the effects here are 1 to #"
            },
            &[],
            &[effects],
        );
    } else if line.begins(b"partition") && groups != replicas {
        said.push_counted(
            b"a partition lists one group for each replica: # listed, # expected",
            &[],
            &[groups, replicas],
        );
    } else if is(bound, b"R") {
        let last = replicas.saturating_sub(1);
        said.push_counted(b"the replicas here are 0 to #", &[], &[last]);
    } else if line.begins(b"call") && k > 5 {
        said.push(b"a number is between -9223372036854775808 and 9223372036854775807")
    } else {
        said.push(row(RANGES, line.field(0)))
    }
}

// The name that occurs twice: of an object, or among those that a line `begin` lists, at most 16.
fn twice(line: &Line) -> usize {
    for k in BEGIN_OBJECT..line.fields.len().min(BEGIN_OBJECT + 17) {
        if earlier(line, k).is_some() {
            return k;
        }
    }
    1
}

// The offset of the name in a field, in a field before it among those that a line `begin` lists.
fn earlier(line: &Line, k: usize) -> Option<usize> {
    for field in line.fields.iter().take(k).skip(BEGIN_OBJECT) {
        if field.text == line.field(k) {
            return Some(field.from);
        }
    }
    None
}

// Appends where the name in a field occurs first: as an object above, or earlier in the line.
fn push_first(note: &mut Text, line: &Line, k: usize) {
    let first = match find_line(line.above, b"object", 1, line.field(k)) {
        Some(at) if line.begins(b"object") && at < line.above.len() => {
            let rest = without_blanks(&line.above[at..]);
            let name = without_blanks(word(rest).1);
            Some(line.above.len().saturating_sub(name.len()))
        }
        _ => earlier(line, k),
    };
    if let Some(at) = first {
        note.push_place(b"  first declared at ", line.file, at);
    }
}

// The first effect that is seen and isn't earlier.
fn not_earlier(line: &Line) -> usize {
    let number = line.number(1);
    for k in first_seen(line)..line.fields.len() {
        if line.number(k) >= number {
            return k;
        }
    }
    0
}

/// The field of the first effect that is seen.
pub(crate) fn first_seen(line: &Line) -> usize {
    if matches!(line.part, Part::Holds) {
        7
    } else {
        16
    }
}

// Appends that an effect sees one that isn't earlier.
fn push_not_earlier(said: &mut Text, line: &Line) {
    let number = line.number(1);
    let sentence: &[u8] = if number > 1 {
        b"effect % can see only earlier effects: 1 to #"
    } else {
        b"effect % is the first, so it can't see any"
    };
    said.push_counted(sentence, &[line.field(1)], &[number.saturating_sub(1)]);
}
