ghost use Rattle.std.specs.Prelude.{◌≡◌, ◌≤◌, ◌<◌, ◌^◌, ◌++◌, length, Some, if◌then◌else◌, IfOk, OnOk};
ghost use Rattle.std.specs.Option.{option_map};
ghost use Rattle.std.specs.Str.{bytes_eq};
ghost use Rattle.ql_exec.specs.Effects.{effect_at};
ghost use Rattle.ql_generated.specs.Summaries.{
  call_lines,
  count,
  last_stamp,
  line,
  message_lines,
  network_lines,
  seen_count,
  summary_text,
  reply_word,
};

use ql_base::{EffId, MAX_EVENTS, NoMemory, push_bytes, push_number};
use ql_exec::Execution;
use ql_machine::Reply;
use std::alloc::Global;

/// How many events a summary is of.
pub(crate) const EVENTS: u32 = MAX_EVENTS as u32;

/// What a run of these events came to: how many replies there are of each kind, how many effects, how many ids they see
/// together, and their greatest stamp.
pub(crate) fn print_summary(
    alloc: Global,
    replies: &[Reply],
    x: &Execution,
) -> Result<Vec<u8>, NoMemory>
    ensures { IfOk result (λ text. text.items ≡ summary_text replies.now x.now) }
{
    let mut text = Vec::new(alloc);
    push_line(&mut text, "events", u128::from(EVENTS))?;
    push_calls(&mut text, replies)?;
    push_messages(&mut text, replies)?;
    push_network(&mut text, replies)?;
    push_line(&mut text, "effects", u128::from(x.len()))?;
    push_line(&mut text, "seen", seen_count(x))?;
    push_line(&mut text, "stamp", u128::from(last_stamp(x)))?;
    Ok(text)
}

// The replies to calls, begins and commits.
fn push_calls(out: &mut Vec<u8>, replies: &[Reply]) -> Result<(), NoMemory>
    ensures { OnOk result (out.new.items ≡ out.old.items ++ call_lines replies.now) }
{
    push_count(out, "ok", replies)?;
    push_count(out, "begun", replies)?;
    push_count(out, "committed", replies)?;
    push_count(out, "blocked", replies)?;
    push_count(out, "unavailable", replies)?;
    push_count(out, "held", replies)
}

// The replies about messages.
fn push_messages(out: &mut Vec<u8>, replies: &[Reply]) -> Result<(), NoMemory>
    ensures { OnOk result (out.new.items ≡ out.old.items ++ message_lines replies.now) }
{
    push_count(out, "cut", replies)?;
    push_count(out, "gone", replies)?;
    push_count(out, "again", replies)?;
    push_count(out, "waits", replies)?;
    push_count(out, "applies", replies)?;
    push_count(out, "lost", replies)
}

// The other replies.
fn push_network(out: &mut Vec<u8>, replies: &[Reply]) -> Result<(), NoMemory>
    ensures { OnOk result (out.new.items ≡ out.old.items ++ network_lines replies.now) }
{
    push_count(out, "split", replies)?;
    push_count(out, "healed", replies)?;
    push_count(out, "sent", replies)?;
    push_count(out, "refused", replies)
}

// A word and how many replies begin with it.
fn push_count(out: &mut Vec<u8>, word: &str, replies: &[Reply]) -> Result<(), NoMemory>
    ensures { OnOk result
        (out.new.items ≡ out.old.items ++ line word.now (count word.now replies.now)) }
{
    push_line(out, word, count(replies, word) as u128)
}

fn push_line(out: &mut Vec<u8>, name: &str, number: u128) -> Result<(), NoMemory>
    ensures { OnOk result (out.new.items ≡ out.old.items ++ line name.now number) }
{
    push_bytes(out, name.as_bytes())?;
    push_bytes(out, b" ")?;
    push_number(out, number)?;
    push_bytes(out, b"\n")
}

// How many replies begin with a word.
fn count(replies: &[Reply], word: &str) -> usize
    ensures { result ≡ count word.now replies.now }
{
    let mut number = 0;
    for k in 0..replies.len() {
        number += one_for(&replies[k], word);
    }
    number
}

// 1 for a reply that begins with a word.
fn one_for(reply: &Reply, word: &str) -> usize
    ensures { result ≡ (if bytes_eq (reply_word reply.now) word.now then 1 else 0) }
{
    if word_of(reply) == word { 1 } else { 0 }
}

// The word that a reply begins with.
fn word_of(reply: &Reply) -> &'static str
    ensures { result.now ≡ reply_word reply.now }
{
    match reply {
        Reply::Ok(_) => "ok",
        Reply::Begun => "begun",
        Reply::Committed(_) => "committed",
        Reply::Blocked(_) => "blocked",
        Reply::Unavailable(_) => "unavailable",
        Reply::Held(_) => "held",
        Reply::Cut => "cut",
        Reply::Gone => "gone",
        Reply::Again => "again",
        Reply::Waits(_) => "waits",
        Reply::Applies(_) => "applies",
        Reply::Lost => "lost",
        Reply::Split => "split",
        Reply::Healed => "healed",
        Reply::Joined(_) => "joined",
        Reply::Sent(_) => "sent",
        Reply::Refused(_) => "refused",
    }
}

// How many effects are seen, each counted at every effect that sees it.
fn seen_count(x: &Execution) -> u128
    ensures { result ≡ seen_count x.now }
{
    let mut sum = 0;
    for k in 0..x.len() {
        sum += u128::from(seen_by(x, EffId(k + 1)));
    }
    sum
}

// How many ids an effect sees.
fn seen_by(x: &Execution, id: EffId) -> u64
    requires first { 1 ≤ id.0 }
    requires last { id.0 ≤ length x.now }
    ensures seen { option_map (λ e. length e.seen) (effect_at x.now id.0) ≡ Some result }
    ensures few { result < 2 ^ 64 }
{
    x.get(id).seen.len() as u64
}

// The greatest stamp, and 0 where there is none.
fn last_stamp(x: &Execution) -> u32
    ensures { result ≡ last_stamp x.now }
{
    let mut last = 0;
    for k in 0..x.len() {
        last = last.max(x.get(EffId(k + 1)).stamp);
    }
    last
}
