ghost use Rattle.std.specs.Prelude.{◌≡◌, ◌≤◌, ℕ, List, Some, IfOk};
ghost use Rattle.ql_draw.specs.Outcomes.{IsPictureAnswer, SaysPicture, ReportsPicture};
ghost use Rattle.ql_draw.specs.Words.{picture_asked_of};
ghost use Rattle.ql_reply.specs.Arguments.{word_texts};

use crate::drawing::{Drawing, drawing_text, fault_text};
use crate::help::HELP;
use crate::words::{Request, parse_words};
use ql_base::{MAX_EXECUTION_BYTES, MAX_SCHEDULE_BYTES, NoMemory, push_bytes};
use ql_ports::{Shelf, read_whole};
use ql_reply::{Cause, Reply, Status, unread};
use std::alloc::Global;

// The greatest lengths of a run's text and of a schedule, in bytes.
const RUN_BYTES: u64 = MAX_EXECUTION_BYTES;

const SCHEDULE_BYTES: u64 = MAX_SCHEDULE_BYTES;

/// The status and the text for these arguments. The named files are each read once, to the end, in the order of the
/// arguments.
pub fn outcome<S: Shelf>(
    alloc: Global,
    words: &Vec<String>,
    shelf: &mut S,
) -> Result<Reply, NoMemory>
    ensures says { IfOk result
        (λ reply. SaysPicture (word_texts words.now) (S.held shelf.old) (S.faults shelf.old)
        (S.faults shelf.new) reply.status reply.text.items) }
    ensures same_contents { (other : List ℕ) → S.held shelf.new other ≡ S.held shelf.old other }
    ensures counts_stay { (other : List ℕ) → S.faults shelf.old other ≤ S.faults shelf.new other }
{
    match parse_words(words) {
        None => Ok(Reply {
            status: Status::Usage,
            text: Vec::from_slice(alloc, HELP.as_bytes())?,
            cause: Cause::Text,
        }),
        Some(request) => of_request(alloc, request, shelf),
    }
}

fn of_request<S: Shelf>(alloc: Global, request: Request, shelf: &mut S) -> Result<Reply, NoMemory>
    ensures says { IfOk result
        (λ reply. ReportsPicture (S.held shelf.old) (S.faults shelf.old) (S.faults shelf.new)
        (picture_asked_of request.entry) reply.status reply.text.items) }
    ensures same_contents { (other : List ℕ) → S.held shelf.new other ≡ S.held shelf.old other }
    ensures counts_stay { (other : List ℕ) → S.faults shelf.old other ≤ S.faults shelf.new other }
{
    match read_whole(alloc, shelf, request.file, RUN_BYTES) {
        Ok(run) => of_run(alloc, request, &run, shelf),
        Err(error) => unread(alloc, error, request.file),
    }
}

// The outcome once the run's text is read.
fn of_run<S: Shelf>(
    alloc: Global,
    request: Request,
    run: &[u8],
    shelf: &mut S,
) -> Result<Reply, NoMemory>
    ensures says { IfOk result
        (λ reply. ReportsPicture (S.held shelf.old) (S.faults shelf.old) (S.faults shelf.new)
        (picture_asked_of request.entry) reply.status reply.text.items) }
    ensures same_contents { (other : List ℕ) → S.held shelf.new other ≡ S.held shelf.old other }
    ensures counts_stay { (other : List ℕ) → S.faults shelf.old other ≤ S.faults shelf.new other }
{
    match request.schedule {
        None => answer(alloc, request, run, None),
        Some(name) => with_schedule(alloc, request, run, name, shelf),
    }
}

// The outcome with a schedule of this name.
fn with_schedule<S: Shelf>(
    alloc: Global,
    request: Request,
    run: &[u8],
    name: &str,
    shelf: &mut S,
) -> Result<Reply, NoMemory>
    requires { (picture_asked_of request).schedule ≡ Some name.now }
    ensures says { IfOk result
        (λ reply. ReportsPicture (S.held shelf.old) (S.faults shelf.old) (S.faults shelf.new)
        (picture_asked_of request.entry) reply.status reply.text.items) }
    ensures same_contents { (other : List ℕ) → S.held shelf.new other ≡ S.held shelf.old other }
    ensures counts_stay { (other : List ℕ) → S.faults shelf.old other ≤ S.faults shelf.new other }
{
    match read_whole(alloc, shelf, name, SCHEDULE_BYTES) {
        Ok(bytes) => answer(alloc, request, run, Some(&bytes)),
        Err(error) => unread(alloc, error, name),
    }
}

// The outcome once the files are read.
fn answer(
    alloc: Global,
    request: Request,
    run: &[u8],
    schedule: Option<&[u8]>,
) -> Result<Reply, NoMemory>
    ensures { IfOk result (λ reply. IsPictureAnswer reply.status reply.text.items) }
{
    let breach = joined(alloc, request.breach)?;
    let what = Drawing {
        run,
        schedule,
        breach: &breach,
        all: request.all,
    };
    match drawing_text(alloc, what) {
        Ok(text) => Ok(Reply {
            status: Status::Done,
            text,
            cause: Cause::Text,
        }),
        Err(fault) => Ok(Reply {
            status: Status::Bad,
            text: fault_text(alloc, fault)?,
            cause: Cause::Text,
        }),
    }
}

// The arguments, with a space after each.
fn joined(alloc: Global, words: &[String]) -> Result<Vec<u8>, NoMemory> {
    let mut text = Vec::new(alloc);
    for word in words {
        push_bytes(&mut text, word.as_bytes())?;
        push_bytes(&mut text, b" ")?;
    }
    Ok(text)
}
