use crate::grid::Grid;
use crate::kind::Kind;
use crate::lanes::is_in_lane;
use crate::pen::{Pen, point};
use crate::shape::Point;
use ql_base::{NoMemory, push_bytes, push_number};
use ql_history::{Fate, History, Passage, Spot};
use std::alloc::Global;

/// The lines of replicas and sessions, with their names.
pub(crate) fn draw_lanes(
    alloc: Global,
    pen: &mut Pen,
    history: &History,
    grid: &Grid,
) -> Result<(), NoMemory> {
    let right = grid.right();
    for (lane, y) in grid.lanes.iter().zip(grid.rows.iter()) {
        let below = y.saturating_add(4);
        match lane.session {
            None => {
                let left = left_of(history, grid, lane.replica);
                pen.line(Kind::Replica, point(left, *y), point(right, *y))?;
                let name = numbered(alloc, b"replica ", lane.replica)?;
                pen.label(alloc, Kind::ReplicaName, point(8, below), &name)?;
            }
            Some(session) => {
                let spot = Spot {
                    column: 0,
                    replica: lane.replica,
                    session: Some(session),
                };
                draw_lane(pen, history, grid, spot)?;
                let name = numbered(alloc, b"session ", session)?;
                pen.label(alloc, Kind::LaneName, point(22, below), &name)?;
            }
        }
    }
    Ok(())
}

// Where the line of a replica begins: at the left, or at its join.
fn left_of(history: &History, grid: &Grid, replica: u32) -> u32 {
    match history.join_of(replica) {
        Some(column) => {
            let session = None;
            let spot = Spot {
                column,
                replica,
                session,
            };
            grid.point(spot).x
        }
        None => 90,
    }
}

// A text followed by a number.
fn numbered(alloc: Global, text: &[u8], number: u32) -> Result<Vec<u8>, NoMemory> {
    let mut name = Vec::new(alloc);
    push_bytes(&mut name, text)?;
    push_number(&mut name, number)?;
    Ok(name)
}

// The line of a session at a replica, from its first event there to its last one.
fn draw_lane(pen: &mut Pen, history: &History, grid: &Grid, lane: Spot) -> Result<(), NoMemory> {
    let mut ends = None;
    for column in &history.columns {
        if is_in_lane(column.spot, lane) {
            let first = ends.map_or(column.spot, |(first, _)| first);
            ends = Some((first, column.spot));
        }
    }
    match ends {
        Some((first, last)) => pen.line(Kind::Lane, grid.point(first), grid.point(last)),
        None => Ok(()),
    }
}

/// The moves of sessions from one replica to another.
pub(crate) fn draw_moves(pen: &mut Pen, history: &History, grid: &Grid) -> Result<(), NoMemory> {
    for (k, column) in history.columns.iter().enumerate() {
        if column.spot.session.is_none() {
            continue;
        }
        if let Some(before) = last_before(history, column.spot, k) {
            if before.replica != column.spot.replica {
                pen.line(Kind::Move, grid.point(before), grid.point(column.spot))?;
            }
        }
    }
    Ok(())
}

// The last spot of a session among the first `count` events.
fn last_before(history: &History, spot: Spot, count: usize) -> Option<Spot> {
    let mut last = None;
    for column in history.columns.iter().take(count) {
        if column.spot.session == spot.session {
            last = Some(column.spot);
        }
    }
    last
}

/// The messages, each as far as it got.
pub(crate) fn draw_passages(pen: &mut Pen, history: &History, grid: &Grid) -> Result<(), NoMemory> {
    for passage in &history.passages {
        draw_passage(pen, grid, *passage)?;
    }
    Ok(())
}

fn draw_passage(pen: &mut Pen, grid: &Grid, passage: Passage) -> Result<(), NoMemory> {
    let from = grid.point(passage.from);
    let to = grid.point(passage.to);
    match passage.fate {
        Fate::Arrived => pen.line(Kind::Message, from, to),
        Fate::Repeated => pen.line(Kind::Repeated, from, to),
        Fate::Lost => pen.line(Kind::Lost, from, on_way(from, to, 3)),
        Fate::Cut => pen.line(Kind::Cut, from, on_way(from, to, 2)),
    }
}

// The point after this many quarters of the way.
fn on_way(from: Point, to: Point, quarters: u32) -> Point {
    point(
        part_way(from.x, to.x, quarters),
        part_way(from.y, to.y, quarters),
    )
}

fn part_way(from: u32, to: u32, quarters: u32) -> u32 {
    if from <= to {
        from.saturating_add((to.saturating_sub(from) / 4).saturating_mul(quarters))
    } else {
        from.saturating_sub((from.saturating_sub(to) / 4).saturating_mul(quarters))
    }
}
