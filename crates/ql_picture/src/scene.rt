ghost use Rattle.std.specs.Prelude.{IfOk};
ghost use Rattle.ql_picture.specs.Dots.{AreDotsOf};

use crate::dots::dots_of;
use crate::events::{draw_causes, draw_events, draw_moments, draw_steps};
use crate::grid::Grid;
use crate::legend::{draw_caption, draw_note, draw_objects};
use crate::marks::Marked;
use crate::pen::Pen;
use crate::picture::Picture;
use crate::spans::draw_spans;
use crate::transactions::draw_transactions;
use crate::travel::{draw_lanes, draw_moves, draw_passages};
use crate::visibility::draw_visibility;
use ql_base::NoMemory;
use ql_history::{History, Run};
use std::alloc::Global;

/// What a picture shows: a run and what happened in it, the effects of a breach, and whether there are arrows from all
/// effects that are seen, or only from those that no third effect implies.
#[derive(Clone, Copy)]
pub struct Scene<'a> {
    pub run: &'a Run,
    pub history: &'a History,
    pub marks: &'a [Marked],
    pub all: bool,
}

/// The picture of a scene on a grid, with a line of text below it.
pub fn picture_of(
    alloc: Global,
    scene: Scene,
    caption: &[u8],
    grid: &Grid,
) -> Result<Picture, NoMemory>
    ensures { IfOk result
        (λ picture. AreDotsOf grid.now scene.entry.history.now.seats.items picture.dots.items) }
{
    let dots = dots_of(alloc, grid, &scene.history.seats)?;
    let under = ground(alloc, scene, grid)?;
    let mut above = Pen::new(alloc);
    draw_events(alloc, &mut above, scene, grid)?;
    let right = legend(alloc, &mut above, scene, caption, bottom(grid))?;
    Ok(Picture {
        width: grid.right().max(right).saturating_add(24),
        height: bottom(grid).saturating_add(72),
        under,
        dots,
        above: above.shapes,
    })
}

// The shapes under the dots.
fn ground(alloc: Global, scene: Scene, grid: &Grid) -> Result<Vec<crate::shape::Shape>, NoMemory> {
    let mut pen = Pen::new(alloc);
    draw_spans(&mut pen, scene.history, grid)?;
    draw_lanes(alloc, &mut pen, scene.history, grid)?;
    draw_moves(&mut pen, scene.history, grid)?;
    draw_transactions(alloc, &mut pen, scene, grid)?;
    draw_arrows(&mut pen, scene, grid)?;
    Ok(pen.shapes)
}

fn draw_arrows(pen: &mut Pen, scene: Scene, grid: &Grid) -> Result<(), NoMemory> {
    draw_steps(pen, scene.history, grid)?;
    draw_moments(pen, scene, grid)?;
    draw_passages(pen, scene.history, grid)?;
    draw_causes(pen, scene.history, grid)?;
    draw_visibility(pen, scene, grid)
}

// Draws the lines below the rows. Returns where the longest one ends.
fn legend(
    alloc: Global,
    pen: &mut Pen,
    scene: Scene,
    caption: &[u8],
    top: u32,
) -> Result<u32, NoMemory> {
    let objects = draw_objects(alloc, pen, scene, top.saturating_add(20))?;
    let words = draw_caption(alloc, pen, caption, top.saturating_add(40))?;
    let note = draw_note(alloc, pen, scene, top.saturating_add(60))?;
    Ok(objects.max(words).max(note))
}

// Where the rows end.
fn bottom(grid: &Grid) -> u32 {
    grid.rows.last().copied().unwrap_or(0).saturating_add(50)
}
