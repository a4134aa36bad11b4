ghost use Rattle.std.specs.Prelude.{◌≡◌, ◌≤◌, ◌↔◌, ℕ, List, IfOk, OnErr};
ghost use Rattle.ql_ports.specs.Faults.{Rose};
ghost use Rattle.ql_app.specs.MissingFiles.{ReportsMissing};
ghost use Rattle.ql_app.specs.Words.{NamedRequest, IsRequest};
ghost use Rattle.ql_reply.specs.Arguments.{word_texts};
ghost use Rattle.std.specs.Option.{ForSome};
ghost use Rattle.ql_reply.specs.Causes.{fault_in};
ghost use Rattle.ql_reply.specs.Lines.{reported_line};
ghost use Rattle.ql_reply.specs.Statuses.{status_of};
ghost use Rattle.ql_reply.specs.declared.status.Status.TheVariants.{Bad};
ghost use Rattle.ql_app.specs.Outcome.{AreHeld, IsAnswered, NoneRose, Says};
ghost use Rattle.ql_reply.specs.Wrote.{Wrote};

use crate::outcome::{Limits, outcome};
use ql_base::{MAX_EXECUTION_BYTES, MAX_SOURCE_BYTES, NoMemory};
use ql_ports::{Shelf, Sink};
use ql_reply::{Ended, Status, write_reply};
use std::alloc::Global;

// Sources, schedules and the files of `holds` and `proof` have one limit, certificates and executions another.
const LIMITS: Limits = Limits {
    file: MAX_SOURCE_BYTES as u32,
    second: MAX_EXECUTION_BYTES as u32,
};

/// Answers the arguments of the command line, without the program's own name: reads the files that they name from the shelf,
/// and writes one text to the sink. Each file is read once.
///
/// The whole text is made first and then written, and writing takes no memory.
pub fn quelea<S: Shelf, K: Sink>(
    alloc: Global,
    words: &Vec<String>,
    shelf: &mut S,
    sink: &mut K,
) -> Result<Status, NoMemory>
    // What was written is a text that the arguments and the files' bytes allow with this status.
    ensures wrote { IfOk result (Wrote
        (Says (record { file = 1048576; second = 67108864 }) (word_texts words.now)
        (S.held shelf.old) (S.faults shelf.old) (S.faults shelf.new))
        (K.written sink.old) (K.written sink.new) (K.faults sink.old) (K.faults sink.new)) }
    ensures no_memory { OnErr result (K.written sink.new ≡ K.written sink.old) }

    // A file that the shelf lacks is reported as a read fault.
    ensures lacking { (named : NamedRequest) → IsRequest (word_texts words.now) named
        → IfOk result (Wrote (ReportsMissing (S.lacks shelf.old) named)
        (K.written sink.old) (K.written sink.new) (K.faults sink.old) (K.faults sink.new)) }

    // The files are as they were, and no count of faults falls.
    ensures same_contents { (other : List ℕ) → S.held shelf.new other ≡ S.held shelf.old other }
    ensures same_files { (other : List ℕ) → S.lacks shelf.new other ↔ S.lacks shelf.old other }
    ensures counts_stay { (other : List ℕ) → S.faults shelf.old other ≤ S.faults shelf.new other }
    ensures sink_count_stays { K.faults sink.old ≤ K.faults sink.new }

    // Nothing failed, and the files are in their grammars: the answer is yes or no.
    ensures complete { (named : NamedRequest) → IsRequest (word_texts words.now) named
        → AreHeld (record { file = 1048576; second = 67108864 }) (S.held shelf.old) named
        → NoneRose (S.faults shelf.old) (S.faults shelf.new) named
        → (Rose (K.faults sink.old) (K.faults sink.new) → ⊥)
        → IsAnswered result }
{
    Ok(carry_out(alloc, words, shelf, sink)?.status)
}

/// Does what `quelea` does, and leaves what a note on the answer needs.
pub fn carry_out<S: Shelf, K: Sink>(
    alloc: Global,
    words: &Vec<String>,
    shelf: &mut S,
    sink: &mut K,
) -> Result<Ended, NoMemory>
    // As `quelea`, by the status.
    // What was written is a text that the arguments and the files' bytes allow with this status.
    ensures wrote { IfOk (status_of result) (Wrote
        (Says (record { file = 1048576; second = 67108864 }) (word_texts words.now)
        (S.held shelf.old) (S.faults shelf.old) (S.faults shelf.new))
        (K.written sink.old) (K.written sink.new) (K.faults sink.old) (K.faults sink.new)) }
    ensures no_memory { OnErr result (K.written sink.new ≡ K.written sink.old) }

    // A file that the shelf lacks is reported as a read fault.
    ensures lacking { (named : NamedRequest) → IsRequest (word_texts words.now) named
        → IfOk (status_of result) (Wrote (ReportsMissing (S.lacks shelf.old) named)
        (K.written sink.old) (K.written sink.new) (K.faults sink.old) (K.faults sink.new)) }

    // The files are as they were, and no count of faults falls.
    ensures same_contents { (other : List ℕ) → S.held shelf.new other ≡ S.held shelf.old other }
    ensures same_files { (other : List ℕ) → S.lacks shelf.new other ↔ S.lacks shelf.old other }
    ensures counts_stay { (other : List ℕ) → S.faults shelf.old other ≤ S.faults shelf.new other }
    ensures sink_count_stays { K.faults sink.old ≤ K.faults sink.new }

    // Nothing failed, and the files are in their grammars: the answer is yes or no.
    ensures complete { (named : NamedRequest) → IsRequest (word_texts words.now) named
        → AreHeld (record { file = 1048576; second = 67108864 }) (S.held shelf.old) named
        → NoneRose (S.faults shelf.old) (S.faults shelf.new) named
        → (Rose (K.faults sink.old) (K.faults sink.new) → ⊥)
        → IsAnswered (status_of result) }

    // A fault that is left for a note is the one that was reported.
    ensures noted { IfOk result (λ ended. ForSome (fault_in ended.cause) (λ fault.
        Wrote (λ status text. (status ≡ Bad) × (text ≡ reported_line fault))
        (K.written sink.old) (K.written sink.new) (K.faults sink.old) (K.faults sink.new)
        ended.status)) }
{
    let answered = outcome(alloc, words, shelf, LIMITS)?;
    let status = write_reply(sink, answered.reply.status, &answered.reply.text);
    Ok(Ended {
        status,
        cause: answered.reply.cause,
        first: answered.first,
        second: answered.second,
    })
}
