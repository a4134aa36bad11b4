use crate::axes::text_width;
use crate::grid::Grid;
use crate::kind::Kind;
use crate::marks::Marked;
use crate::pen::{Pen, plain, point};
use crate::scene::Scene;
use crate::shape::Point;
use crate::transactions::level_of;
use ql_base::{NoMemory, push_number};
use ql_history::{Cause, Column, Happening, History, Spot};
use std::alloc::Global;

/// The texts and marks of all events, drawn above the dots.
pub(crate) fn draw_events(
    alloc: Global,
    pen: &mut Pen,
    scene: Scene,
    grid: &Grid,
) -> Result<(), NoMemory> {
    let has_numbers = scene.history.replicas > 0;
    for column in &scene.history.columns {
        let at = grid.point(column.spot);
        if has_numbers {
            draw_number(alloc, pen, column.spot, at)?;
        }
        draw_event(alloc, pen, column, at)?;
    }
    for mark in scene.marks {
        draw_mark(alloc, pen, scene.history, grid, mark)?;
    }
    Ok(())
}

// The number of an event, counted from 1.
fn draw_number(alloc: Global, pen: &mut Pen, spot: Spot, at: Point) -> Result<(), NoMemory> {
    let text = decimal(alloc, spot.column.saturating_add(1))?;
    pen.label(alloc, Kind::Axis, point(at.x, 12), &text)
}

fn decimal(alloc: Global, number: u32) -> Result<Vec<u8>, NoMemory> {
    let mut text = Vec::new(alloc);
    push_number(&mut text, number)?;
    Ok(text)
}

fn draw_event(alloc: Global, pen: &mut Pen, column: &Column, at: Point) -> Result<(), NoMemory> {
    match column.happening {
        Happening::Made(number) => {
            let text = decimal(alloc, number)?;
            pen.label(
                alloc,
                Kind::Number,
                point(at.x, at.y.saturating_add(4)),
                &text,
            )?;
            draw_texts(alloc, pen, column, at, Kind::Answer)
        }
        Happening::Stopped(_) => {
            draw_sign(pen, at)?;
            draw_texts(alloc, pen, column, at, Kind::Refusal)
        }
        Happening::Opened | Happening::Closed => {
            let corner = point(at.x.saturating_sub(2), at.y.saturating_sub(9));
            pen.rect(plain(Kind::Mark), corner, point(4, 18))?;
            draw_texts(alloc, pen, column, at, Kind::Answer)
        }
        Happening::Noted => {
            let below = point(at.x, at.y.saturating_add(18));
            pen.label(alloc, Kind::Event, below, &column.below)?;
            pen.label(
                alloc,
                Kind::Event,
                point(at.x, at.y.saturating_sub(9)),
                &column.above,
            )
        }
        Happening::Partitioned => pen.label(alloc, Kind::Event, point(at.x, 26), &column.below),
    }
}

// The texts above and below the mark of an event.
fn draw_texts(
    alloc: Global,
    pen: &mut Pen,
    column: &Column,
    at: Point,
    below: Kind,
) -> Result<(), NoMemory> {
    pen.label(
        alloc,
        Kind::Call,
        point(at.x, at.y.saturating_sub(17)),
        &column.above,
    )?;
    pen.label(
        alloc,
        below,
        point(at.x, at.y.saturating_add(26)),
        &column.below,
    )
}

// A box with a cross.
fn draw_sign(pen: &mut Pen, at: Point) -> Result<(), NoMemory> {
    let corner = point(at.x.saturating_sub(9), at.y.saturating_sub(9));
    pen.rect(plain(Kind::Sign), corner, point(18, 18))?;
    let near = point(at.x.saturating_sub(5), at.y.saturating_sub(5));
    let far = point(at.x.saturating_add(5), at.y.saturating_add(5));
    pen.line(Kind::Stroke, near, far)?;
    pen.line(Kind::Stroke, point(near.x, far.y), point(far.x, near.y))
}

// The variables of an effect, above its call, and a ring around it.
fn draw_mark(
    alloc: Global,
    pen: &mut Pen,
    history: &History,
    grid: &Grid,
    mark: &Marked,
) -> Result<(), NoMemory> {
    let Some(at) = place_of(history, grid, mark.effect) else {
        return Ok(());
    };
    let ring = point(at.x.saturating_sub(16), at.y.saturating_sub(16));
    pen.rect(plain(Kind::Ring), ring, point(32, 32))?;
    let width = text_width(&mark.names).saturating_add(10);
    let corner = point(at.x.saturating_sub(width / 2), at.y.saturating_sub(47));
    pen.rect(plain(Kind::Board), corner, point(width, 17))?;
    pen.label(
        alloc,
        Kind::Variable,
        point(at.x, at.y.saturating_sub(34)),
        &mark.names,
    )
}

// The point of an effect that is drawn, counted from 1.
fn place_of(history: &History, grid: &Grid, effect: u32) -> Option<Point> {
    if effect == 0 {
        return None;
    }
    let seat = history.seats.get(effect as usize - 1)?;
    Some(grid.point(seat.spot))
}

/// What the calls that weren't answered waited for: an effect that is missing, or a replica that can't be reached.
pub(crate) fn draw_causes(pen: &mut Pen, history: &History, grid: &Grid) -> Result<(), NoMemory> {
    for column in &history.columns {
        if let Happening::Stopped(cause) = column.happening {
            draw_cause(pen, history, grid, grid.point(column.spot), cause)?;
        }
    }
    Ok(())
}

fn draw_cause(
    pen: &mut Pen,
    history: &History,
    grid: &Grid,
    at: Point,
    cause: Cause,
) -> Result<(), NoMemory> {
    match cause {
        Cause::Effect(effect) => match place_of(history, grid, effect) {
            Some(from) => pen.line(Kind::Asks, at, from),
            None => Ok(()),
        },
        Cause::Replica(replica) => pen.line(Kind::Asks, at, point(at.x, grid.replica_y(replica))),
        Cause::Other => Ok(()),
    }
}

/// A strong call is one step of all replicas: a line through their lines.
pub(crate) fn draw_steps(pen: &mut Pen, history: &History, grid: &Grid) -> Result<(), NoMemory> {
    for seat in &history.seats {
        if seat.is_strong {
            draw_step(pen, history, grid, seat.spot)?;
        }
    }
    Ok(())
}

fn draw_step(pen: &mut Pen, history: &History, grid: &Grid, spot: Spot) -> Result<(), NoMemory> {
    let at = grid.point(spot);
    for replica in 0..history.replicas {
        if history.join_of(replica).unwrap_or(0) <= spot.column {
            draw_joint(pen, point(at.x, grid.replica_y(replica)), at)?;
        }
    }
    Ok(())
}

// A line from a replica's line to a mark.
fn draw_joint(pen: &mut Pen, joint: Point, at: Point) -> Result<(), NoMemory> {
    pen.line(Kind::Step, joint, at)?;
    let corner = point(joint.x.saturating_sub(4), joint.y.saturating_sub(4));
    pen.rect(plain(Kind::Joint), corner, point(8, 8))
}

/// The moment that each rr transaction sees: a line from its replica's line to its begin.
pub(crate) fn draw_moments(pen: &mut Pen, scene: Scene, grid: &Grid) -> Result<(), NoMemory> {
    for column in &scene.history.columns {
        if let (Happening::Opened, Some(number)) = (column.happening, column.begun) {
            if level_of(scene, number) == b"rr".as_slice() {
                let at = grid.point(column.spot);
                draw_joint(pen, point(at.x, grid.replica_y(column.spot.replica)), at)?;
            }
        }
    }
    Ok(())
}
