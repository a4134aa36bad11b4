use crate::axes::text_width;
use crate::grid::Grid;
use crate::kind::Kind;
use crate::pen::{Pen, plain, point};
use crate::scene::Scene;
use ql_base::{NoMemory, push_bytes, push_number};
use ql_history::{Begun, Column, Spot};
use std::alloc::Global;

// A transaction at one replica: its first and its last spot there.
#[derive(Clone, Copy)]
struct Stay {
    number: u32,
    first: Spot,
    last: Spot,
}

/// A box around what each transaction did at each replica, with its number, name and level.
pub(crate) fn draw_transactions(
    alloc: Global,
    pen: &mut Pen,
    scene: Scene,
    grid: &Grid,
) -> Result<(), NoMemory> {
    let stays = stays_of(alloc, &scene.history.columns)?;
    for stay in &stays {
        draw_stay(alloc, pen, scene, grid, *stay)?;
    }
    Ok(())
}

fn stays_of(alloc: Global, columns: &[Column]) -> Result<Vec<Stay>, NoMemory> {
    let mut stays = Vec::new(alloc);
    for column in columns {
        if let Some(number) = column.begun {
            put_stay(&mut stays, number, column.spot)?;
        }
    }
    Ok(stays)
}

// Extends a transaction's stay at a replica by a spot, or begins it.
fn put_stay(stays: &mut Vec<Stay>, number: u32, spot: Spot) -> Result<(), NoMemory> {
    for stay in stays.iter_mut() {
        if stay.number == number && stay.first.replica == spot.replica {
            stay.last = spot;
            return Ok(());
        }
    }
    stays.push(Stay {
        number,
        first: spot,
        last: spot,
    })?;
    Ok(())
}

fn draw_stay(
    alloc: Global,
    pen: &mut Pen,
    scene: Scene,
    grid: &Grid,
    stay: Stay,
) -> Result<(), NoMemory> {
    let name = name_of(alloc, scene, stay.number)?;
    let left = grid
        .x(stay.first.column)
        .saturating_sub(grid.half(stay.first.column))
        .saturating_add(2);
    let end = grid
        .x(stay.last.column)
        .saturating_add(grid.half(stay.last.column))
        .saturating_sub(2);
    let right = end.max(left.saturating_add(text_width(&name)).saturating_add(10));
    let top = grid.y(stay.first).saturating_sub(48);
    pen.rect(
        plain(Kind::Transaction),
        point(left, top),
        point(right.saturating_sub(left), 96),
    )?;
    pen.label(
        alloc,
        Kind::TransactionName,
        point(left.saturating_add(6), top.saturating_add(90)),
        &name,
    )
}

// The number of a transaction, and its name and level if one of its effects names it.
fn name_of(alloc: Global, scene: Scene, number: u32) -> Result<Vec<u8>, NoMemory> {
    let mut name = Vec::from_slice(alloc, b"txn ")?;
    push_number(&mut name, number)?;
    if let Some(begun) = begun_of(scene, number) {
        push_bytes(&mut name, b":")?;
        push_bytes(&mut name, begun.name.bytes())?;
        push_bytes(&mut name, b" ")?;
        push_bytes(&mut name, level_of(scene, number))?;
    }
    Ok(name)
}

/// The level of a begun transaction, empty where it is unknown.
pub(crate) fn level_of(scene: Scene, number: u32) -> &[u8] {
    match begun_of(scene, number) {
        Some(begun) => scene.run.level_of(true, begun.name),
        None => b"",
    }
}

fn begun_of(scene: Scene, number: u32) -> Option<Begun> {
    for effect in &scene.run.effects {
        if let Some(begun) = effect.begun {
            if begun.number == number {
                return Some(begun);
            }
        }
    }
    None
}
