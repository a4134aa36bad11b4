ghost use Rattle.std.specs.Prelude.{◌≡◌, ◌≤◌, ℕ, List, IfOk, OnErr};
ghost use Rattle.ql_draw.specs.Outcomes.{SaysPicture};
ghost use Rattle.ql_reply.specs.Wrote.{Wrote};
ghost use Rattle.ql_reply.specs.Arguments.{word_texts};

use crate::outcome::outcome;
use ql_base::NoMemory;
use ql_ports::{Shelf, Sink};
use ql_reply::{Status, write_reply};
use std::alloc::Global;

/// Carries out the arguments of the command line, without the program's own name: reads the files that they name from
/// the shelf, and writes one text to the sink.
///
/// The whole text is made first and then written, and writing takes no memory.
pub fn draw<S: Shelf, K: Sink>(
    alloc: Global,
    words: &Vec<String>,
    shelf: &mut S,
    sink: &mut K,
) -> Result<Status, NoMemory>
    // What was written is a text that the arguments allow with this status.
    ensures wrote { IfOk result (Wrote
        (SaysPicture (word_texts words.now) (S.held shelf.old) (S.faults shelf.old) (S.faults shelf.new))
        (K.written sink.old) (K.written sink.new) (K.faults sink.old) (K.faults sink.new)) }
    ensures no_memory { OnErr result (K.written sink.new ≡ K.written sink.old) }

    // The files are unchanged, and no count of faults falls.
    ensures same_contents { (other : List ℕ) → S.held shelf.new other ≡ S.held shelf.old other }
    ensures counts_stay { (other : List ℕ) → S.faults shelf.old other ≤ S.faults shelf.new other }
    ensures sink_count_stays { K.faults sink.old ≤ K.faults sink.new }
{
    let reply = outcome(alloc, words, shelf)?;
    Ok(write_reply(sink, reply.status, &reply.text))
}
