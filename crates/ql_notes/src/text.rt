// The text of a note.

use crate::excerpt::{File, Spot, push_line, push_position, push_shown};
use ql_base::{NoMemory, push_number};
use std::alloc::Global;

// How many names are listed at most, and how many bytes of a word are shown.
const MOST: usize = 12;

const WORD_BYTES: usize = 100;

/// A text to which bytes are appended. Out of memory, some are missing, and it isn't whole.
#[derive(Drop)]
pub(crate) struct Text {
    bytes: Vec<u8>,
    is_whole: bool,
}

impl Text {
    pub(crate) fn new(alloc: Global) -> Text {
        Text {
            bytes: Vec::new(alloc),
            is_whole: true,
        }
    }

    /// The bytes, if none is missing.
    pub(crate) fn whole(self) -> Result<Vec<u8>, NoMemory> {
        if self.is_whole {
            Ok(self.bytes)
        } else {
            Err(NoMemory)
        }
    }

    // Notes whether bytes were appended.
    fn keep(&mut self, done: Result<(), NoMemory>) {
        self.is_whole &= done.is_ok();
    }

    pub(crate) fn push(&mut self, bytes: &[u8]) {
        let is_pushed = self.bytes.extend_from_slice(bytes).is_ok();
        self.is_whole &= is_pushed;
    }

    // Appends a word of a file as it is shown, and of a long one the first bytes.
    fn push_word(&mut self, word: &[u8]) {
        let shown = push_shown(&mut self.bytes, word.get(..WORD_BYTES).unwrap_or(word));
        self.keep(shown);
        if word.len() > WORD_BYTES {
            self.push(b"..");
        }
    }

    /// Appends a sentence with the words in the places of `%`, in order.
    pub(crate) fn push_filled(&mut self, sentence: &[u8], words: &[&[u8]]) {
        self.push_counted(sentence, words, &[]);
    }

    /// Appends a sentence with the words in the places of `%` and the numbers in those of `#`, each in order. A place for
    /// which there is none stays as it is.
    pub(crate) fn push_counted(&mut self, sentence: &[u8], words: &[&[u8]], numbers: &[u64]) {
        let (mut word, mut number) = (0usize, 0usize);
        for byte in sentence {
            if *byte == b'%' && word < words.len() {
                self.push_word(words[word]);
                word += 1;
            } else if *byte == b'#' && number < numbers.len() {
                let pushed = push_number(&mut self.bytes, numbers[number]);
                self.keep(pushed);
                number += 1;
            } else {
                self.push(&[*byte]);
            }
        }
    }

    /// Appends what comes before the item at an index of a list of alternatives.
    pub(crate) fn push_separator(&mut self, k: usize, count: usize) {
        if k > 0 && k.saturating_add(1) == count {
            self.push(b" or ");
        } else if k > 0 {
            self.push(b", ");
        }
    }

    /// Appends the names that are known, at most a dozen.
    pub(crate) fn push_known(&mut self, names: &[&[u8]]) {
        if names.is_empty() {
            return self.push(b"  no names are known here\n");
        }
        self.push(b"  known here: ");
        for (k, name) in names.iter().take(MOST).enumerate() {
            self.push_filled(if k == 0 { b"`%`" } else { b", `%`" }, &[name]);
        }
        self.push(if names.len() > MOST {
            b" and more\n"
        } else {
            b"\n"
        });
    }

    /// Appends what is at the position of an offset of a file.
    pub(crate) fn push_place(&mut self, what: &[u8], file: File, at: usize) {
        self.push(what);
        let pushed = push_position(&mut self.bytes, file, at);
        self.keep(pushed);
        self.push(b"\n");
    }

    /// Appends the position of a fault and the rule that it breaks, before a sentence.
    pub(crate) fn begin_fault(&mut self, file: File, spot: Spot, rule: &str) {
        let pushed = push_position(&mut self.bytes, file, spot.from);
        self.keep(pushed);
        self.push(b": ");
        self.push(rule.as_bytes());
        self.push(b": ");
    }

    /// Ends the sentence on a fault, and appends the line with a mark under it.
    pub(crate) fn end_fault(&mut self, file: File, spot: Spot) {
        self.push(b"\n");
        let pushed = push_line(&mut self.bytes, file, spot);
        self.keep(pushed);
    }
}
