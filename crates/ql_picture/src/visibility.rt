use crate::dots::COLOURS;
use crate::grid::Grid;
use crate::kind::{Kind, Style};
use crate::lanes::is_in_lane;
use crate::pen::{Pen, plain, point};
use crate::scene::Scene;
use crate::shape::Point;
use crate::sight::{is_implied, sees};
use ql_base::NoMemory;
use ql_history::{Seat, Spot};

// The distance of an arrow from the centre of a dot, in pixels.
const EDGE: u32 = 13;

/// An arrow to each effect from those that it sees: from all of them, or from those that no third one implies. And a
/// dotted line from each effect that it doesn't see, though it sees one that does.
pub(crate) fn draw_visibility(pen: &mut Pen, scene: Scene, grid: &Grid) -> Result<(), NoMemory> {
    let mut to = 0u32;
    for seat in &scene.history.seats {
        to = to.saturating_add(1);
        draw_seen(pen, scene, grid, seat, to)?;
    }
    Ok(())
}

fn draw_seen(
    pen: &mut Pen,
    scene: Scene,
    grid: &Grid,
    seat: &Seat,
    to: u32,
) -> Result<(), NoMemory> {
    let mut from = 0u32;
    for other in &scene.history.seats {
        from = from.saturating_add(1);
        if from >= to {
            return Ok(());
        }
        let spots = [other.spot, seat.spot];
        let is_seen = sees(scene.run, to, from);
        let is_implied = is_implied(scene.run, to, from);
        if is_seen && (scene.all || !is_implied) {
            draw_arrow(pen, scene, grid, spots, arrow_style(other))?;
        }
        if !is_seen && is_implied {
            draw_gap(pen, scene, grid, spots)?;
        }
    }
    Ok(())
}

fn arrow_style(seat: &Seat) -> Style {
    Style {
        kind: Kind::Sees,
        colour: seat.object % COLOURS,
    }
}

fn draw_arrow(
    pen: &mut Pen,
    scene: Scene,
    grid: &Grid,
    spots: [Spot; 2],
    style: Style,
) -> Result<(), NoMemory> {
    let ends = [grid.point(spots[0]), grid.point(spots[1])];
    if !is_in_lane(spots[0], spots[1]) {
        draw_bend(pen, style, ends)
    } else if is_between(scene, spots[0], spots[1]) {
        draw_arc(pen, style, ends)
    } else {
        draw_straight(pen, style, ends)
    }
}

// The dotted line from an effect that isn't seen.
fn draw_gap(pen: &mut Pen, scene: Scene, grid: &Grid, spots: [Spot; 2]) -> Result<(), NoMemory> {
    let style = plain(Kind::Unseen);
    let ends = [grid.point(spots[0]), grid.point(spots[1])];
    if is_in_lane(spots[0], spots[1]) && is_between(scene, spots[0], spots[1]) {
        draw_arc(pen, style, ends)
    } else {
        draw_bend(pen, style, ends)
    }
}

// Whether an event of the same lane lies between two of its spots.
fn is_between(scene: Scene, from: Spot, to: Spot) -> bool {
    scene.history.columns.iter().any(|column| {
        is_in_lane(column.spot, from)
            && from.column < column.spot.column
            && column.spot.column < to.column
    })
}

// An arrow to the next spot of its lane.
fn draw_straight(pen: &mut Pen, style: Style, ends: [Point; 2]) -> Result<(), NoMemory> {
    let from = point(ends[0].x.saturating_add(EDGE), ends[0].y);
    let to = point(ends[1].x.saturating_sub(EDGE), ends[1].y);
    pen.curve(style, [from, to], [from, to])
}

// An arrow within a lane, above what is in between.
fn draw_arc(pen: &mut Pen, style: Style, ends: [Point; 2]) -> Result<(), NoMemory> {
    let from = point(ends[0].x.saturating_add(8), ends[0].y.saturating_sub(9));
    let to = point(ends[1].x.saturating_sub(8), ends[1].y.saturating_sub(10));
    let first = point(from.x.saturating_add(24), from.y.saturating_sub(28));
    let second = point(to.x.saturating_sub(24), to.y.saturating_sub(27));
    pen.curve(style, [from, to], [first, second])
}

// An arrow between lanes, horizontal at both ends.
fn draw_bend(pen: &mut Pen, style: Style, ends: [Point; 2]) -> Result<(), NoMemory> {
    let from = point(ends[0].x.saturating_add(EDGE - 3), ends[0].y);
    let to = point(ends[1].x.saturating_sub(EDGE), ends[1].y);
    let reach = (to.x.saturating_sub(from.x) / 5).saturating_mul(2).max(18);
    let first = point(from.x.saturating_add(reach), from.y);
    let second = point(to.x.saturating_sub(reach), to.y);
    pen.curve(style, [from, to], [first, second])
}
