ghost use Rattle.std.specs.Prelude.{◌≡◌, IfOk};
ghost use Rattle.ql_reply.specs.declared.status.Status.TheVariants.{Done};
ghost use Rattle.ql_reply.specs.Arguments.{word_texts};
ghost use Rattle.ql_claim.specs.Headline.{Headline};
ghost use Rattle.ql_claim.specs.InTurn.{AreInTurn, NothingFailed};
ghost use Rattle.ql_claim.specs.Kept.{AreKeptInTurn, IsUpheld};
ghost use Rattle.ql_claim.specs.Soundness.{Soundness};

use crate::law::{headline, reported_executions_fit, soundness};
use ql_app::{Status, quelea};
use ql_base::NoMemory;
use ql_parse::one_program_answer;
use ql_ports::{Shelf, Sink};
use std::alloc::Global;

/// A call of `quelea`, with the headline and with soundness alone as its clauses.
pub fn answer<S: Shelf, K: Sink>(
    alloc: Global,
    words: &Vec<String>,
    shelf: &mut S,
    sink: &mut K,
) -> Result<Status, NoMemory>
    ensures headline { IfOk result
        (λ status. status ≡ Done
        → Headline (word_texts words.now) (S.held shelf.old) (K.written sink.old)
        (K.written sink.new)) }
    ensures sound { IfOk result
        (λ status. Soundness status (word_texts words.now) (S.held shelf.old) (K.written sink.old)
        (K.written sink.new)) }
{
    headline();
    soundness();
    quelea(alloc, words, shelf, sink)
}

/// Two calls of `quelea`, each with its own shelf and sink: what the first printed for `prove`, with status 0, the second
/// accepts for `check`, where nothing fails.
pub fn prove_and_check<S: Shelf, K: Sink, T: Shelf, L: Sink>(
    alloc: Global,
    words: &Vec<String>,
    shelf: &mut S,
    sink: &mut K,
    next: &Vec<String>,
    next_shelf: &mut T,
    next_sink: &mut L,
) -> Result<(Status, Status), NoMemory>
    ensures accepted { (turn : AreInTurn (word_texts words.now) (S.held shelf.old)
        (K.written sink.old) (K.written sink.new) (word_texts next.now) (T.held next_shelf.old))
        → NothingFailed (T.faults next_shelf.old) (T.faults next_shelf.new) turn.again turn.other
        (L.faults next_sink.old) (L.faults next_sink.new)
        → IfOk result (λ ended. ended.0 ≡ Done → ended.1 ≡ Done) }
{
    one_program_answer();
    let proved = quelea(alloc, words, shelf, sink)?;
    let checked = quelea(alloc, next, next_shelf, next_sink)?;
    Ok((proved, checked))
}

/// Two calls of `quelea`, each with its own shelf and sink: where the first printed levels for `classify`, with status 0, and
/// they are kept in the execution of a file, the second says for `verify` that every contract holds in it, or that judging
/// them is too much work, where nothing fails.
pub fn classify_and_verify<S: Shelf, K: Sink, T: Shelf, L: Sink>(
    alloc: Global,
    words: &Vec<String>,
    shelf: &mut S,
    sink: &mut K,
    next: &Vec<String>,
    next_shelf: &mut T,
    next_sink: &mut L,
) -> Result<(Status, Status), NoMemory>
    ensures upheld { (turn : AreKeptInTurn (word_texts words.now) (S.held shelf.old)
        (K.written sink.old) (K.written sink.new) (word_texts next.now) (T.held next_shelf.old))
        → NothingFailed (T.faults next_shelf.old) (T.faults next_shelf.new) turn.again turn.other
        (L.faults next_sink.old) (L.faults next_sink.new)
        → IfOk result (λ ended. ended.0 ≡ Done → IsUpheld turn.program turn.execution ended.1) }
{
    one_program_answer();
    reported_executions_fit();
    let classified = quelea(alloc, words, shelf, sink)?;
    let verified = quelea(alloc, next, next_shelf, next_sink)?;
    Ok((classified, verified))
}
