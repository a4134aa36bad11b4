// The lines of targets whose levels rose.
ghost use Rattle.std.specs.Prelude.{◌≡◌, ◌++◌, OnOk};
ghost use Rattle.ql_ground.specs.OfPrograms.{IsGoalOf};
ghost use Rattle.ql_baseline.specs.Comparison.{level_rank, lost_text, stored_op_in, op_rise, rise_at, rise_text, stored_op, stored_txn, txn_in, txn_rank, txn_rise, was_text};

use crate::stored::Stored;
use ql_base::{NoMemory, push_bytes};
use ql_ground::Goal;
use ql_levels::{Level, TxnLevel, level_word, txn_word};
use ql_typing::Typed;

/// Appends the line of a target, at its level or at the highest, where it had a lower level in the stored answer.
pub(crate) fn push_rise_at(
    out: &mut Vec<u8>,
    t: &Typed,
    stored: &[Stored],
    g: Goal,
    has_level: bool,
) -> Result<(), NoMemory>
    requires { IsGoalOf t.now.program g }
    ensures { OnOk result
        (out.new.items ≡ out.old.items ++ rise_at t.now.program stored.now has_level g) }
{
    match g {
        Goal::OpAt(o, level) => {
            let name = t.op(o).name.word.bytes();
            let is = if has_level { Some(level) } else { None };
            push_op_rise(out, name, stored_op(stored, name), is)
        }
        Goal::TxnAt(d, level) => {
            let name = t.txn(d).name.word.bytes();
            let is = if has_level { Some(level) } else { None };
            push_txn_rise(out, name, stored_txn(stored, name), is)
        }
    }
}

fn push_op_rise(
    out: &mut Vec<u8>,
    name: &[u8],
    was: Option<Level>,
    is: Option<Level>,
) -> Result<(), NoMemory>
    ensures { OnOk result (out.new.items ≡ out.old.items ++ op_rise name.now was is) }
{
    match (was, is) {
        (None, _) => Ok(()),
        (Some(was), None) => push_lost(out, b"op", name, level_word(was)),
        (Some(was), Some(is)) => {
            if level_rank(was) < level_rank(is) {
                push_rise(out, b"op", name, level_word(was), level_word(is))
            } else {
                Ok(())
            }
        }
    }
}

fn push_txn_rise(
    out: &mut Vec<u8>,
    name: &[u8],
    was: Option<TxnLevel>,
    is: Option<TxnLevel>,
) -> Result<(), NoMemory>
    ensures { OnOk result (out.new.items ≡ out.old.items ++ txn_rise name.now was is) }
{
    match (was, is) {
        (None, _) => Ok(()),
        (Some(was), None) => push_lost(out, b"txn", name, txn_word(was)),
        (Some(was), Some(is)) => {
            if txn_rank(was) < txn_rank(is) {
                push_rise(out, b"txn", name, txn_word(was), txn_word(is))
            } else {
                Ok(())
            }
        }
    }
}

fn push_rise(
    out: &mut Vec<u8>,
    kind: &[u8],
    name: &[u8],
    was: &'static str,
    is: &'static str,
) -> Result<(), NoMemory>
    ensures { OnOk result
        (out.new.items ≡ out.old.items ++ rise_text kind.now name.now was.now is.now) }
{
    push_was(out, kind, name, was)?;
    push_bytes(out, b", is ")?;
    push_bytes(out, is.as_bytes())?;
    push_bytes(out, b"\n")
}

fn push_lost(out: &mut Vec<u8>, kind: &[u8], name: &[u8], was: &'static str) -> Result<(), NoMemory>
    ensures { OnOk result (out.new.items ≡ out.old.items ++ lost_text kind.now name.now was.now) }
{
    push_was(out, kind, name, was)?;
    push_bytes(out, b", has none\n")
}

fn push_was(out: &mut Vec<u8>, kind: &[u8], name: &[u8], was: &'static str) -> Result<(), NoMemory>
    ensures { OnOk result (out.new.items ≡ out.old.items ++ was_text kind.now name.now was.now) }
{
    push_bytes(out, kind)?;
    push_bytes(out, b" ")?;
    push_bytes(out, name)?;
    push_bytes(out, b" was ")?;
    push_bytes(out, was.as_bytes())
}

// The level that a stored answer has for an operation; its first line of it counts.
#[tactic(auto, unfolding(crate::specs::Comparison::stored_op))]
fn stored_op(stored: &[Stored], name: &[u8]) -> Option<Level>
    ensures { result ≡ stored_op stored.now name.now }
{
    let mut rest = stored;
    while let Some((first, others)) = rest.split_first() {
        if let Some(level) = op_in(first, name) {
            return level;
        }
        rest = others;
    }
    None
}

fn op_in(stored: &Stored, name: &[u8]) -> Option<Option<Level>>
    ensures { result ≡ stored_op_in stored.now name.now }
{
    match stored {
        Stored::Op(word, level) => {
            if word.bytes() == name {
                Some(*level)
            } else {
                None
            }
        }
        _ => None,
    }
}

// The same of a transaction.
#[tactic(auto, unfolding(crate::specs::Comparison::stored_txn))]
fn stored_txn(stored: &[Stored], name: &[u8]) -> Option<TxnLevel>
    ensures { result ≡ stored_txn stored.now name.now }
{
    let mut rest = stored;
    while let Some((first, others)) = rest.split_first() {
        if let Some(level) = txn_in(first, name) {
            return level;
        }
        rest = others;
    }
    None
}

fn txn_in(stored: &Stored, name: &[u8]) -> Option<Option<TxnLevel>>
    ensures { result ≡ txn_in stored.now name.now }
{
    match stored {
        Stored::Txn(word, level) => {
            if word.bytes() == name {
                Some(*level)
            } else {
                None
            }
        }
        _ => None,
    }
}

// The number of a level in ascending order.
fn level_rank(level: Level) -> u8
    ensures { result ≡ level_rank level }
{
    match level {
        Level::Eventual => 0,
        Level::Causal => 1,
        Level::Wide => 2,
        Level::Strong => 3,
    }
}

fn txn_rank(level: TxnLevel) -> u8
    ensures { result ≡ txn_rank level }
{
    match level {
        TxnLevel::Rc => 0,
        TxnLevel::Mav => 1,
        TxnLevel::Rr => 2,
    }
}
