ghost use Rattle.std.specs.Prelude.{◌≡◌, ◌<◌, ◌+◌, ◌^◌, ◌∷◌, [], MatchOption, length};
ghost use Rattle.std.specs.Str.Lines.{lines, strip_carriage_return};
ghost use Rattle.ql_lines.specs.Lines.{ahead_from, is_skipped};

use crate::fields::first_field;
use crate::search::bytes_before;
use std::marker::Model;

/// A line of a line file that isn't skipped, without its end.
#[derive(Clone, Copy)]
pub struct Line<'a> {
    /// The line's number, from 1.
    pub number: u64,
    pub text: &'a [u8],
}

/// Reads the lines of a line file from first to last, and skips blank lines and comments, which begin
/// with `#` after spaces.
#[derive(Drop)]
pub struct Lines<'a> {
    rest: &'a [u8],
    next: u64,
}

impl<'a> Model for Lines<'a> {
    ghost use Rattle.std.specs.Prelude.{◌+◌, ◌<◌, ◌^◌, length};
    ghost use Rattle.ql_lines.specs.Lines.{Ahead, ahead_from};

    ghost Value = { Ahead };

    ghost view = { λ r. ahead_from r.next r.rest.now };

    ghost invariant = { λ r. r.next + length r.rest.now < 2 ^ 64 };
}

impl<'a> Lines<'a> {
    ghost use Rattle.ql_lines.specs.Lines.{Numbered};

    /// All lines of a file.
    pub fn of(bytes: &'a [u8]) -> Lines<'a>
        ensures { result ≡ ahead_from 1 bytes.now }
    {
        Lines {
            rest: bytes,
            next: 1,
        }
    }

    /// The next line that isn't skipped.
    pub fn next_line(&mut self) -> Option<Line<'a>>
        ensures line { MatchOption result ((self.old.lines ≡ []) × (self.new.lines ≡ []))
            (λ l. self.old.lines ≡ record { number = l.number; text = l.text.now }
            ∷ self.new.lines) }
        ensures end { self.new.end ≡ self.old.end }
    {
        while let Some((text, rest)) = first_line(self.rest) {
            let number = self.next;
            self.rest = rest;
            self.next += 1;
            if !is_skipped(text) {
                return Some(Line { number, text });
            }
        }
        None
    }

    /// The line number of the file's end: one more than the number of its last line.
    pub fn end(&self) -> u64
        ensures { result ≡ self.now.end }
    {
        let mut rest = self.rest;
        let mut next = self.next;
        while let Some((_, remaining)) = first_line(rest) {
            rest = remaining;
            next += 1;
        }
        next
    }
}

// The first line of a file and what follows its end; `None` if nothing is left.
fn first_line(bytes: &[u8]) -> Option<(&[u8], &[u8])>
    ensures { MatchOption result (length bytes.now ≡ 0)
        (λ x. (length x.1.now < length bytes.now) × (lines bytes.now ≡ x.0.now ∷ lines x.1.now)) }
{
    if bytes.is_empty() {
        return None;
    }
    let len = bytes_before(bytes, b'\n');
    if len == bytes.len() {
        Some((bytes, &[]))
    } else {
        Some((without_return(&bytes[..len]), &bytes[len + 1..]))
    }
}

// A line without the one carriage return at its end, if it has one.
fn without_return(line: &[u8]) -> &[u8]
    ensures { result.now ≡ strip_carriage_return line.now }
{
    if !line.is_empty() && line[line.len() - 1] == b'\r' {
        &line[..line.len() - 1]
    } else {
        line
    }
}

#[tactic(auto, unfolding(crate::specs::Lines::is_skipped))]
// Whether a line is blank or a comment.
fn is_skipped(line: &[u8]) -> bool
    ensures { result ≡ is_skipped line.now }
{
    match first_field(line) {
        Some((field, _)) => field.first() == Some(&b'#'),
        None => true,
    }
}
