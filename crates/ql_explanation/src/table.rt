// A small table of an execution's effects.
ghost use Rattle.std.specs.Prelude.{◌<◌, ◌≤◌, length};
ghost use Rattle.ql_report.specs.EffectTexts.{AreNamed, IsNamed};

use ql_base::{EffId, NoMemory, push_bytes, push_number};
use ql_counter::{At, Counter};
use ql_exec::{Effect, Member};
use ql_lang::Var;
use ql_typing::Typed;
use std::alloc::Global;

const COLUMNS: usize = 7;

const HEADS: [&str; 7] = [
    "effect",
    "is",
    "operation",
    "object",
    "session",
    "transaction",
    "sees",
];

/// The effects of a countermodel, a row for each. The second column has the variables of the contract that stand for the
/// effect, and `cur`.
pub(crate) fn table(
    alloc: Global,
    t: &Typed,
    vars: &[Var],
    c: &Counter,
) -> Result<Vec<u8>, NoMemory>
    requires { AreNamed t.now.program 7 c.now.execution }
{
    let mut cells = Vec::new(alloc);
    for head in HEADS {
        cells.push(Vec::from_slice(alloc, head.as_bytes())?)?;
    }
    for k in 0..c.execution.len() {
        let id = EffId(k + 1);
        push_row(alloc, &mut cells, t, vars, c, id)?;
    }
    print(alloc, &cells)
}

#[tactic(auto, using(crate::proofs::Named::named_at, crate::proofs::Named::op_named_at))]
fn push_row(
    alloc: Global,
    cells: &mut Vec<Vec<u8>>,
    t: &Typed,
    vars: &[Var],
    c: &Counter,
    id: EffId,
) -> Result<(), NoMemory>
    requires named { AreNamed t.now.program 7 c.now.execution }
    requires first { 1 ≤ id.0 }
    requires last { id.0 ≤ length c.now.execution }
{
    let effect = c.execution.get(id);
    cells.push(number(alloc, b"", id.0)?)?;
    cells.push(names(alloc, vars, c, id)?)?;
    cells.push(Vec::from_slice(alloc, t.op(effect.op).name.word.bytes())?)?;
    cells.push(number(alloc, b"o", effect.object.0)?)?;
    cells.push(number(alloc, b"", effect.session.0)?)?;
    cells.push(transaction(alloc, t, effect)?)?;
    cells.push(seen(alloc, effect.seen.items())?)?;
    Ok(())
}

fn number(alloc: Global, before: &[u8], number: u32) -> Result<Vec<u8>, NoMemory> {
    let mut cell = Vec::from_slice(alloc, before)?;
    push_number(&mut cell, number)?;
    Ok(cell)
}

// The variables that stand for an effect.
fn names(alloc: Global, vars: &[Var], c: &Counter, id: EffId) -> Result<Vec<u8>, NoMemory> {
    let mut cell = Vec::new(alloc);
    for (var, place) in vars.iter().zip(c.places.items()) {
        if place.0 == id.0 {
            push_item(&mut cell, var.name.word.bytes())?;
        }
    }
    if let At::Effect(cur) = c.at
        && cur.0 == id.0
    {
        push_item(&mut cell, b"cur")?;
    }
    or_none(cell)
}

fn transaction(alloc: Global, t: &Typed, effect: &Effect) -> Result<Vec<u8>, NoMemory>
    requires { IsNamed t.now.program 7 effect.now }
{
    match effect.member {
        Member::Alone => or_none(Vec::new(alloc)),
        Member::Inside(run, decl) => {
            let mut cell = number(alloc, b"", run.0)?;
            push_bytes(&mut cell, b":")?;
            push_bytes(&mut cell, t.txn(decl).name.word.bytes())?;
            Ok(cell)
        }
    }
}

fn seen(alloc: Global, ids: &[u32]) -> Result<Vec<u8>, NoMemory> {
    let mut cell = Vec::new(alloc);
    for id in ids {
        if !cell.is_empty() {
            push_bytes(&mut cell, b" ")?;
        }
        push_number(&mut cell, *id)?;
    }
    or_none(cell)
}

// Appends an item to a cell, after a comma where it isn't the first.
fn push_item(cell: &mut Vec<u8>, item: &[u8]) -> Result<(), NoMemory> {
    if !cell.is_empty() {
        push_bytes(cell, b", ")?;
    }
    push_bytes(cell, item)
}

// A dash in place of an empty cell.
fn or_none(mut cell: Vec<u8>) -> Result<Vec<u8>, NoMemory> {
    if cell.is_empty() {
        push_bytes(&mut cell, b"-")?;
    }
    Ok(cell)
}

// The cells row by row, each column as wide as its widest cell.
fn print(alloc: Global, cells: &[Vec<u8>]) -> Result<Vec<u8>, NoMemory> {
    let mut widths = [0; COLUMNS];
    for (k, cell) in cells.iter().enumerate() {
        if cell.len() > widths[k % COLUMNS] {
            widths[k % COLUMNS] = cell.len();
        }
    }
    let mut text = Vec::new(alloc);
    for (k, cell) in cells.iter().enumerate() {
        push_cell(&mut text, k % COLUMNS, cell, widths[k % COLUMNS])?;
    }
    Ok(text)
}

fn push_cell(text: &mut Vec<u8>, column: usize, cell: &[u8], width: usize) -> Result<(), NoMemory>
    requires { column < 7 }
{
    if column == 0 {
        push_bytes(text, b"    ")?;
    }
    push_bytes(text, cell)?;
    if column + 1 == COLUMNS {
        return push_bytes(text, b"\n");
    }
    for _ in cell.len()..width {
        push_bytes(text, b" ")?;
    }
    push_bytes(text, b"  ")
}
