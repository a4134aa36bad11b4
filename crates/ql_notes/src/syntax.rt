// What was found and what was expected, where a text doesn't follow the grammar of sources.
//
// Each terminal is tried: the text before the offset is read with the terminal after it. Where the first fault isn't at
// the terminal, the grammar allows it there.
ghost use Rattle.std.specs.Prelude.{◌≤◌, length};

use crate::place::line_of;
use crate::text::Text;
use crate::words::{has_word, is, is_among, is_line_start, is_word_start, row, word};
use ql_base::{MAX_SOURCE_BYTES, NoMemory, is_keyword};
use ql_parse::{ParseFault, parse_program};
use std::alloc::Global;

// A spelling of each terminal, a name first, and then those that end or separate something.
const TERMINALS: &[u8] =
    b"x ; ) } ] . , : 1 \"\" type state op contract answer emit when apply transaction uses \
    forall true false unit empty if then else and or not int bool text set map cur txn vis so \
    soo sameobj eq hb hbo { ( [ = := => == != < <= > >= + - * /\\ \\/ | &";

// What rules of the grammar begin with, and what they are called. Where all of it is allowed, the rule is.
const RULES: &str = "x 1 \"\" true false unit if not ( -:an expression
x 1 \"\" true false unit not ( -:an operand
x cur true ( txn vis so soo sameobj eq hb hbo [:a relation or a formula in brackets
vis so soo sameobj eq hb hbo [:a relation
1 \"\" true false unit empty -:a value
int bool text unit set map:a kind
int bool text:`int`, `bool` or `text`
x cur:a variable or `cur`";

// How many are listed at most.
const MOST: usize = 12;

/// Appends what was found after the first bytes of a source, and what the grammar allows there. In a line its end stands
/// for a semicolon.
pub(crate) fn push_syntax(
    alloc: Global,
    note: &mut Text,
    before: &[u8],
    word: &[u8],
    is_line: bool,
) -> Result<(), NoMemory>
    requires { length before.now ≤ 1048576 }
{
    let terminals = expected(alloc, before)?;
    push_found(note, word, is_line);
    push_terminals(alloc, note, &terminals, is_line)?;
    note.push(b"\n");
    if is_keyword(word)
        && is_among(&terminals, b"x")
        && !has_word(b"not forall false and or", word)
    {
        note.push_filled(b"  `%` is a keyword, so it can't be a name\n", &[word]);
    }
    Ok(())
}

/// Appends a word in quotes, or where it is empty that the line or the file ends.
pub(crate) fn push_found(note: &mut Text, word: &[u8], is_line: bool) {
    let sentence: &[u8] = if !word.is_empty() {
        b"  found `%`, expected "
    } else if is_line {
        b"  found the end of the line, expected "
    } else {
        b"  found the end of the file, expected "
    };
    note.push_filled(sentence, &[word]);
}

// The terminals that the grammar allows after the first bytes of a source.
fn expected(alloc: Global, before: &[u8]) -> Result<Vec<&'static [u8]>, NoMemory>
    requires { length before.now ≤ 1048576 }
{
    let mut found = Vec::new(alloc);
    for k in 0..TERMINALS.len() {
        if is_word_start(TERMINALS, k) {
            let terminal = word(&TERMINALS[k..]).0;
            if is_allowed(alloc, before, terminal)? {
                found.push(terminal)?;
            }
        }
    }
    Ok(found)
}

// Whether the grammar allows a terminal after these bytes.
fn is_allowed(alloc: Global, before: &[u8], terminal: &[u8]) -> Result<bool, NoMemory>
    requires { length before.now ≤ 1048576 }
{
    let text = [before, b"\n", terminal].concat(alloc)?;
    // Terminals are short, so no text is as long.
    if text.len() > 2 * MAX_SOURCE_BYTES as usize {
        return Ok(false);
    }
    match parse_program(alloc, &text).err() {
        Some(ParseFault::NoMemory) => Err(NoMemory),
        Some(ParseFault::Lex(_)) => Ok(false),
        Some(ParseFault::Unexpected(at) | ParseFault::Deep(at) | ParseFault::Wide(at)) => Ok(
            at as usize > before.len() + 1,
        ),
        None => Ok(true),
    }
}

// Appends terminals: in place of those with which a rule begins its name, and then the others.
fn push_terminals(
    alloc: Global,
    note: &mut Text,
    terminals: &[&'static [u8]],
    is_line: bool,
) -> Result<(), NoMemory> {
    let (first_words, name) = rule_of(terminals);
    let mut others = Vec::new(alloc);
    for terminal in terminals {
        if !has_word(first_words, terminal) {
            others.push(*terminal)?;
        }
    }
    note.push(name);
    let count = others.len().saturating_add(!name.is_empty() as usize);
    for (k, terminal) in others.iter().enumerate() {
        if k == MOST {
            note.push(b" and more");
            return Ok(());
        }
        note.push_separator(k.saturating_add(!name.is_empty() as usize), count);
        push_terminal(note, terminal, is_line);
    }
    Ok(())
}

// The first rule whose first words are all among some terminals: those words and its name.
fn rule_of(terminals: &[&'static [u8]]) -> (&'static [u8], &'static [u8]) {
    let rules = RULES.as_bytes();
    for k in 0..rules.len() {
        if is_line_start(rules, k) {
            let line = line_of(&rules[k..]);
            let colon = line.iter().rposition(|byte| *byte == b':').unwrap_or(0);
            let first_words = line.get(..colon).unwrap_or(b"");
            if are_all(first_words, terminals) {
                return (
                    first_words,
                    line.get(colon.saturating_add(1)..).unwrap_or(b""),
                );
            }
        }
    }
    (b"", b"")
}

// Whether each word of a text is among some words.
fn are_all(text: &[u8], words: &[&[u8]]) -> bool {
    for k in 0..text.len() {
        if is_word_start(text, k) && !is_among(words, word(&text[k..]).0) {
            return false;
        }
    }
    true
}

// What the terminals stand for that don't stand for themselves.
const MEANINGS: &str = "x a name
1 a number
\"\" a text";

fn push_terminal(note: &mut Text, terminal: &[u8], is_line: bool) {
    let meaning = row(MEANINGS, terminal);
    if is_line && is(terminal, b";") {
        note.push(b"the end of the line")
    } else if meaning.is_empty() {
        note.push_filled(b"`%`", &[terminal])
    } else {
        note.push(meaning)
    }
}
