// The note on arguments that no command takes: what is wrong with them, and the usage of that command.

use crate::arguments::push_counts;
use crate::help::HELP;
use crate::place::line_of;
use crate::text::Text;
use crate::words::{has_word, is, is_line_start, row, word, word_of};
use ql_base::number_of;

// How many files and numbers a command takes, and its options.
const COMMANDS: &str = "classify 1 --why
explain 1 --json --baseline
prove 1
check 2
verify 2
holds 1
run 2 --json
slim 2
restart 4
gen 3
soak 2
proof 1
draw 1 --all --breach";

// The greatest numbers that a command takes, among its files and numbers.
const GREATEST: &str = "gen . 2147483647 4000
soak . 2147483647
restart . . 15 1000000";

/// Appends a note on arguments that no command takes.
pub(crate) fn push_usage(note: &mut Text, words: &Vec<String>) {
    let command = argument(words, 0);
    let taken = row(COMMANDS, command);
    if taken.is_empty() {
        return note.push(HELP.as_bytes());
    }
    push_reason(note, words, taken);
    note.push(b"usage: ./quelea COMMAND ..\n\n");
    let help = HELP.as_bytes();
    let mut is_shown = false;
    for k in 0..help.len() {
        if is_line_start(help, k) {
            let line = line_of(&help[k..]);
            if !line.starts_with(b"   ") {
                is_shown = line.starts_with(b"  ") && is(word_of(line, 0), command);
            }
            if is_shown {
                note.push(line);
                note.push(b"\n");
            }
        }
    }
}

fn argument(words: &Vec<String>, k: usize) -> &[u8] {
    match words.get(k) {
        Some(word) => word.as_bytes(),
        None => b"",
    }
}

// Appends what is wrong with the arguments of a command, where that is clear. `taken` says what it takes.
fn push_reason(note: &mut Text, words: &Vec<String>, taken: &[u8]) {
    let command = argument(words, 0);
    let (count, options) = word(taken);
    let mut given = 0usize;
    for k in 1..words.len() {
        let word = argument(words, k);
        if !word.starts_with(b"-") {
            given = given.saturating_add(1);
        } else if !has_word(options, word) {
            return note.push_filled(b"`%` isn't an option of `%`\n", &[word, command]);
        } else if k > 1 {
            return note.push_filled(
                b"`%` comes right after `%`, before any file\n",
                &[word, command],
            );
        }
    }
    let extra = is(argument(words, 1), b"--baseline") as u64;
    let count = number_of(count, 9).unwrap_or(0).saturating_add(extra) as usize;
    if given != count {
        push_counts(note, command, count, given);
        note.push(b"\n");
    } else {
        push_wrong_argument(note, words, words.len().saturating_sub(given));
    }
}

// Appends which of the arguments from an index on isn't a number in its range, or can't name a file.
fn push_wrong_argument(note: &mut Text, words: &Vec<String>, from: usize) {
    let greatest = row(GREATEST, argument(words, 0));
    for k in from..words.len() {
        let word = argument(words, k);
        let bound = word_of(greatest, k.saturating_sub(from));
        let least = is(bound, b"1000000") as u64;
        match number_of(bound, u32::MAX as u64) {
            None if word.is_empty() || word.len() > 255 => {
                return note.push(b"a file's name has 1 to 255 bytes\n");
            }
            Some(most)
                if number_of(word, most)
                    .unwrap_or(u64::MAX)
                    .wrapping_sub(least)
                    > most => {
                return note.push_counted(
                    b"`%` isn't a number from # to #, without leading zeros\n",
                    &[word],
                    &[least, most],
                );
            }
            _ => {}
        }
    }
}
