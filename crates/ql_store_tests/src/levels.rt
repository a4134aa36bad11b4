ghost use Rattle.std.specs.Prelude.{IfOk, IfSome};
ghost use Rattle.ql_store.specs.Levels.{HasLevelOfEach};

use ql_base::NoMemory;
use ql_levels::{Level, Levels, TxnLevel};
use ql_typing::Typed;
use std::alloc::Global;

/// The levels of a program's operations and transactions, by their words in order.
pub(crate) fn levels_of(
    alloc: Global,
    typed: &Typed,
    words: &str,
) -> Result<Option<Levels>, NoMemory>
    ensures { IfOk result (λ found. IfSome found (HasLevelOfEach typed.now.program)) }
{
    let mut ops = Vec::new(alloc);
    let mut txns = Vec::new(alloc);
    for word in words.split(' ') {
        push_level(&mut ops, &mut txns, word)?;
    }
    Ok(levels_for(typed, ops, txns))
}

fn push_level(ops: &mut Vec<Level>, txns: &mut Vec<TxnLevel>, word: &str) -> Result<(), NoMemory> {
    match word {
        "eventual" => ops.push(Level::Eventual)?,
        "causal" => ops.push(Level::Causal)?,
        "wide" => ops.push(Level::Wide)?,
        "strong" => ops.push(Level::Strong)?,
        "rc" => txns.push(TxnLevel::Rc)?,
        "mav" => txns.push(TxnLevel::Mav)?,
        _ => txns.push(TxnLevel::Rr)?,
    }
    Ok(())
}

// Levels, if there is one for each operation and each transaction.
fn levels_for(typed: &Typed, ops: Vec<Level>, txns: Vec<TxnLevel>) -> Option<Levels>
    ensures { IfSome result (HasLevelOfEach typed.now.program) }
{
    if ops.len() != typed.ops() as usize {
        return None;
    }
    if txns.len() != typed.txns() as usize {
        return None;
    }
    Some(Levels::of(ops, txns))
}
