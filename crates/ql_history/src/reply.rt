use ql_base::{NoMemory, number_of};
use ql_lines::{after_number, after_spaces, first_field};
use std::alloc::Global;

/// The first word of a reply.
#[derive(Clone, Copy, PartialEq, Eq)]
pub enum ReplyWord {
    Ok,
    Begun,
    Committed,
    Blocked,
    Unavailable,
    Held,
    Refused,
    Applies,
    Waits,
    Again,
    Cut,
    Gone,
    Sent,
    Lost,
    Split,
    Healed,
    Joined,
}

/// The reply to an event.
pub struct Reply {
    pub word: ReplyWord,
    /// The number after the word, if there is one.
    pub number: Option<u32>,
    /// The whole reply, as it was printed.
    pub text: Vec<u8>,
}

// Written out, so that a crate above proves one call for it.
impl Drop for Reply {
    fn drop(self) {
        let Reply {
            word: _,
            number: _,
            text: _,
        } = self;
    }
}

/// The reply on a line that has to have this number.
pub(crate) fn reply_of(alloc: Global, text: &[u8], number: u32) -> Result<Option<Reply>, NoMemory> {
    let Some((text, word, number)) = spelled(text, number) else {
        return Ok(None);
    };
    let text = Vec::from_slice(alloc, text)?;
    Ok(Some(Reply { word, number, text }))
}

// The text of a reply, its word, and the number after that.
fn spelled(text: &[u8], number: u32) -> Option<(&[u8], ReplyWord, Option<u32>)> {
    let (reported, rest) = after_number(text, u32::MAX)?;
    let (field, after) = first_field(rest)?;
    let word = word_of(field)?;
    if reported == number {
        Some((after_spaces(rest), word, number_after(after)))
    } else {
        None
    }
}

fn number_after(text: &[u8]) -> Option<u32> {
    let (field, _) = first_field(text)?;
    let number = number_of(field, u64::from(u32::MAX))?;
    Some(number as u32)
}

// The words with which replies begin.
static WORDS: [(&str, ReplyWord); 17] = [
    ("ok", ReplyWord::Ok),
    ("begun", ReplyWord::Begun),
    ("committed", ReplyWord::Committed),
    ("blocked", ReplyWord::Blocked),
    ("unavailable", ReplyWord::Unavailable),
    ("held", ReplyWord::Held),
    ("refused", ReplyWord::Refused),
    ("applies", ReplyWord::Applies),
    ("waits", ReplyWord::Waits),
    ("again", ReplyWord::Again),
    ("cut", ReplyWord::Cut),
    ("gone", ReplyWord::Gone),
    ("sent", ReplyWord::Sent),
    ("lost", ReplyWord::Lost),
    ("split", ReplyWord::Split),
    ("healed", ReplyWord::Healed),
    ("joined", ReplyWord::Joined),
];

fn word_of(field: &[u8]) -> Option<ReplyWord> {
    for (word, reply) in WORDS.iter() {
        if word.as_bytes() == field {
            return Some(*reply);
        }
    }
    None
}
