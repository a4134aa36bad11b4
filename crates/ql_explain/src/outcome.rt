ghost use Rattle.std.specs.Prelude.{◌≡◌, ◌<◌, ◌≤◌, ◌^◌, ℕ, List, IfOk, IfSome, length};
ghost use Rattle.ql_explain.specs.Outcomes.{SaysInquiry, SaysIn, ReportsInquiry, most_bytes};
ghost use Rattle.ql_explain.specs.Words.{Compared, Explained};
ghost use Rattle.ql_reply.specs.Arguments.{word_texts};
ghost use Rattle.ql_reply.specs.Unread.{IsUnread};

use crate::help::HELP;
use crate::json_explanation::explain_json;
use crate::request::{Form, Pair, Request, parse_words};
use ql_base::{MAX_SOURCE_BYTES, NoMemory};
use ql_baseline::compare;
use ql_explanation::explain;
use ql_ports::{ReadWhy, Shelf, read_whole};
use ql_reply::{Answered, Cause, Reply, Status, unread};
use std::alloc::Global;

// The greatest length of a source and of a stored answer, in bytes.
const FILE_BYTES: u64 = MAX_SOURCE_BYTES;

/// What answers these arguments. The named files are each read once, to the end, in the order of the
/// arguments.
pub(crate) fn outcome<S: Shelf>(
    alloc: Global,
    words: &Vec<String>,
    shelf: &mut S,
) -> Result<Answered, NoMemory>
    ensures says { IfOk result
        (λ answered. SaysInquiry (word_texts words.now) (S.held shelf.old) (S.faults shelf.old)
        (S.faults shelf.new) answered.reply.status answered.reply.text.items) }
    ensures same_contents { (other : List ℕ) → S.held shelf.new other ≡ S.held shelf.old other }
    ensures counts_stay { (other : List ℕ) → S.faults shelf.old other ≤ S.faults shelf.new other }
{
    match parse_words(words) {
        None => {
            let text = Vec::from_slice(alloc, HELP.as_bytes())?;
            Ok(Answered::without_files(
                alloc,
                Reply {
                    status: Status::Usage,
                    text,
                    cause: Cause::Text,
                },
            ))
        }
        Some(Request::Explained(form, name)) => of_source(alloc, form, name, shelf),
        Some(Request::Compared(pair)) => of_pair(alloc, pair, shelf),
    }
}

fn of_source<S: Shelf>(
    alloc: Global,
    form: Form,
    name: &str,
    shelf: &mut S,
) -> Result<Answered, NoMemory>
    ensures says { IfOk result
        (λ answered. ReportsInquiry (S.held shelf.old) (S.faults shelf.old) (S.faults shelf.new)
        (Explained form name.now) answered.reply.status answered.reply.text.items) }
    ensures same_contents { (other : List ℕ) → S.held shelf.new other ≡ S.held shelf.old other }
    ensures counts_stay { (other : List ℕ) → S.faults shelf.old other ≤ S.faults shelf.new other }
{
    match read_whole(alloc, shelf, name, FILE_BYTES) {
        Ok(first) => Ok(Answered {
            reply: answer(alloc, form, &first)?,
            first,
            second: Vec::new(alloc),
        }),
        Err(error) => without_file(alloc, error, name),
    }
}

fn of_pair<S: Shelf>(alloc: Global, pair: Pair, shelf: &mut S) -> Result<Answered, NoMemory>
    ensures says { IfOk result
        (λ answered. ReportsInquiry (S.held shelf.old) (S.faults shelf.old) (S.faults shelf.new)
        (Compared pair.entry.baseline.now pair.entry.source.now) answered.reply.status answered.reply.text.items) }
    ensures same_contents { (other : List ℕ) → S.held shelf.new other ≡ S.held shelf.old other }
    ensures counts_stay { (other : List ℕ) → S.faults shelf.old other ≤ S.faults shelf.new other }
{
    match read_whole(alloc, shelf, pair.baseline, FILE_BYTES) {
        Ok(baseline) => with_baseline(alloc, pair, baseline, shelf),
        Err(error) => without_file(alloc, error, pair.baseline),
    }
}

// The outcome once the stored answer is read.
fn with_baseline<S: Shelf>(
    alloc: Global,
    pair: Pair,
    baseline: Vec<u8>,
    shelf: &mut S,
) -> Result<Answered, NoMemory>
    requires held { IfSome (S.held shelf.old pair.baseline.now) (λ whole. baseline.items ≡ whole) }
    requires short { length baseline.items ≤ most_bytes }
    ensures says { IfOk result
        (λ answered. ReportsInquiry (S.held shelf.old) (S.faults shelf.old) (S.faults shelf.new)
        (Compared pair.entry.baseline.now pair.entry.source.now) answered.reply.status answered.reply.text.items) }
    ensures same_contents { (other : List ℕ) → S.held shelf.new other ≡ S.held shelf.old other }
    ensures counts_stay { (other : List ℕ) → S.faults shelf.old other ≤ S.faults shelf.new other }
{
    match read_whole(alloc, shelf, pair.source, FILE_BYTES) {
        Ok(source) => Ok(Answered {
            reply: compare(alloc, &source, &baseline)?,
            first: baseline,
            second: source,
        }),
        Err(error) => without_file(alloc, error, pair.source),
    }
}

// The answer if the file with this name couldn't be read whole.
fn without_file(alloc: Global, error: ReadWhy, name: &str) -> Result<Answered, NoMemory>
    ensures { IfOk result
        (λ answered. IsUnread error name.now answered.reply.status answered.reply.text.items) }
{
    Ok(Answered::without_files(alloc, unread(alloc, error, name)?))
}

// The outcome once the source is read.
fn answer(alloc: Global, form: Form, source: &[u8]) -> Result<Reply, NoMemory>
    requires { length source.now < 2 ^ 32 }
    ensures { IfOk result (λ reply. SaysIn form source.now reply.status reply.text.items) }
{
    match form {
        Form::Text => explain(alloc, source),
        Form::Json => explain_json(alloc, source),
    }
}
