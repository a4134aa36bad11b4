// The note on a line of a line file.
ghost use Rattle.std.specs.Prelude.{◌≤◌, length};

use crate::breaches::push_breach;
use crate::contracts::push_contract_fault;
use crate::excerpt::{File, Spot};
use crate::forms::push_form_fault;
use crate::pieces::anywhere;
use crate::place::{line_of, place_of_line};
use crate::text::Text;
use crate::words::{find_line, is, is_line_start, line_with, without_return, word_of};
use ql_base::{NoMemory, number_of};
use ql_reply::{Fault, Part, Rule};
use std::alloc::Global;

/// A field of a line, and its offset in the file.
#[derive(Clone, Copy)]
pub(crate) struct Field<'a> {
    pub(crate) text: &'a [u8],
    pub(crate) from: usize,
}

/// A line with a fault: its file, what that is read as, the rule that it breaks, the offset at which it begins, its
/// fields, the text above it that is read and what that has, and the tokens of the source that the file belongs to.
#[derive(Clone, Copy)]
pub(crate) struct Line<'a> {
    pub(crate) file: File<'a>,
    pub(crate) part: Part,
    pub(crate) rule: Rule,
    pub(crate) start: usize,
    pub(crate) fields: &'a [Field<'a>],
    pub(crate) above: &'a [u8],
    pub(crate) counts: Above,
    pub(crate) source: &'a [&'a [u8]],
}

impl<'a> Line<'a> {
    /// The bytes of a field, empty where it isn't there.
    pub(crate) fn field(&self, k: usize) -> &'a [u8] {
        match self.fields.get(k) {
            Some(field) => field.text,
            None => b"",
        }
    }

    pub(crate) fn begins(&self, word: &[u8]) -> bool {
        is(self.field(0), word)
    }

    /// The number in a field; 0 where it isn't a number.
    pub(crate) fn number(&self, k: usize) -> u64 {
        number_of(self.field(k), u32::MAX as u64).unwrap_or(0)
    }

    /// The type of a call's object.
    pub(crate) fn type_of_object(&self) -> &'a [u8] {
        word_of(line_with(self.above, b"object", 1, self.field(4)), 2)
    }

    /// How many replicas there are.
    pub(crate) fn replicas(&self) -> u64 {
        let line = line_with(self.above, b"replicas", 0, b"replicas");
        let first = number_of(word_of(line, 1), 16).unwrap_or(0);
        first.saturating_add(self.counts.joins)
    }

    /// The bytes of a field; one byte after the last field.
    pub(crate) fn spot(&self, k: usize) -> Spot {
        match (self.fields.get(k), self.fields.last()) {
            (Some(field), _) => Spot {
                from: field.from,
                bytes: field.text.len(),
            },
            (None, Some(last)) => Spot {
                from: last.from.saturating_add(last.text.len()),
                bytes: 1,
            },
            (None, None) => Spot {
                from: self.start,
                bytes: 1,
            },
        }
    }
}

/// Appends a note on a fault in a line file. `source` has the tokens of the source that the file belongs to.
pub(crate) fn push_line_fault<'x>(
    alloc: Global,
    note: &mut Text,
    file: File<'x>,
    fault: Fault,
    source: &'x [&'x [u8]],
) -> Result<(), NoMemory> {
    let text = file.text;
    let start = start_of(text, fault.at);
    let fields = fields(alloc, without_return(line_of(&text[start..])), start)?;
    let above = text.get(first_read(text, fault.part)..start).unwrap_or(b"");
    let line = Line {
        file,
        part: fault.part,
        rule: fault.rule,
        start,
        fields: &fields,
        above,
        counts: counts_of(above),
        source,
    };
    if matches!(fault.part, Part::Holds) && line.counts.lines == 0 && line.begins(b"contract") {
        return push_contract_fault(alloc, note, &line);
    }
    match fault.rule {
        Rule::Unexpected => push_form_fault(note, &line),
        _ => push_breach(alloc, note, &line)?,
    }
    Ok(())
}

// The offset of a line; the text's length for a line after the last one.
fn start_of(text: &[u8], number: u64) -> usize
    ensures { result ≤ length text.now }
{
    let place = place_of_line(text, number);
    if place.line == number {
        place.start
    } else {
        text.len()
    }
}

/// The offset of the first line that is read: of an execution the line `execution`.
pub(crate) fn first_read(text: &[u8], part: Part) -> usize {
    match part {
        Part::Execution => find_line(text, b"execution", 1, b"").unwrap_or(text.len()),
        _ => 0,
    }
}

/// The fields of a line that begins at an offset. A space in quotes or brackets doesn't end a field.
pub(crate) fn fields(alloc: Global, line: &[u8], start: usize) -> Result<Vec<Field>, NoMemory> {
    let mut fields = Vec::new(alloc);
    let (mut from, mut depth, mut is_quoted) = (0usize, 0usize, false);
    for (k, byte) in line.iter().enumerate() {
        if *byte == b' ' && depth == 0 && !is_quoted {
            push_field(&mut fields, line.get(from..k), start.saturating_add(from))?;
            from = k.saturating_add(1);
        }
        match *byte {
            b'"' => is_quoted = !is_quoted,
            b'(' | b'{' if !is_quoted => depth = depth.saturating_add(1),
            b')' | b'}' if !is_quoted => depth = depth.saturating_sub(1),
            _ => {}
        }
    }
    push_field(&mut fields, line.get(from..), start.saturating_add(from))?;
    Ok(fields)
}

// Appends a field at an offset, unless it is empty.
fn push_field<'a>(
    fields: &mut Vec<Field<'a>>,
    text: Option<&'a [u8]>,
    from: usize,
) -> Result<(), NoMemory> {
    match text {
        Some(text) if !text.is_empty() => fields.push(Field { text, from })?,
        _ => {}
    }
    Ok(())
}

/// Counts and marks of lines, without blank lines and comments.
#[derive(Clone, Copy)]
pub(crate) struct Above {
    pub(crate) lines: u64,
    /// How many effects there are.
    pub(crate) effects: u64,
    /// How many numbered lines there are since the last line without a number.
    pub(crate) numbered: u64,
    /// How many replicas join.
    pub(crate) joins: u64,
    pub(crate) has_events: bool,
    pub(crate) is_ended: bool,
}

/// What the lines of a text are.
pub(crate) fn counts_of(text: &[u8]) -> Above {
    let mut above = Above {
        lines: 0,
        effects: 0,
        numbered: 0,
        joins: 0,
        has_events: false,
        is_ended: false,
    };
    for k in 0..text.len() {
        if !is_line_start(text, k) {
            continue;
        }
        let first = word_of(line_of(&text[k..]), 0);
        if !matches!(first.first(), None | Some(b'#')) {
            let is_numbered = matches!(first.first(), Some(b'0'..=b'9'));
            above.lines = above.lines.saturating_add(1);
            above.effects = above.effects.saturating_add(is(first, b"effect") as u64);
            above.numbered = above.numbered.saturating_add(1) * is_numbered as u64;
            above.joins = above.joins.saturating_add(is(first, b"join") as u64);
            above.has_events |= is(first, b"events");
            above.is_ended |= is(first, b"end");
        }
    }
    above
}
