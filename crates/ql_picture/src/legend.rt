use crate::axes::{LEFT, LETTER, text_width};
use crate::dots::COLOURS;
use crate::kind::{Kind, Style};
use crate::pen::{Pen, point};
use crate::scene::Scene;
use crate::shape::Point;
use ql_base::{NoMemory, push_bytes, push_number};
use std::alloc::Global;

// The most objects that are named.
const MOST_NAMED: u32 = 64;

// The most bytes of a caption that count for its width.
const MOST_WORDS: usize = 2000;

/// Draws the objects with their colours, of many the first ones, in a line at a height. Returns where the line ends.
pub(crate) fn draw_objects(
    alloc: Global,
    pen: &mut Pen,
    scene: Scene,
    y: u32,
) -> Result<u32, NoMemory> {
    let count = scene.run.objects.len();
    let mut x = LEFT;
    for number in 0..count.min(MOST_NAMED) {
        let name = scene.run.object_name(number);
        let style = Style {
            kind: Kind::Swatch,
            colour: number % COLOURS,
        };
        pen.rect(style, point(x, y.saturating_sub(10)), point(11, 11))?;
        pen.label(alloc, Kind::Object, point(x.saturating_add(16), y), name)?;
        x = x.saturating_add(text_width(name)).saturating_add(36);
    }
    if count > MOST_NAMED {
        return draw_others(alloc, pen, count - MOST_NAMED, point(x, y));
    }
    Ok(x)
}

// Says how many objects aren't named. Returns where the text ends.
fn draw_others(alloc: Global, pen: &mut Pen, count: u32, at: Point) -> Result<u32, NoMemory> {
    let mut text = Vec::from_slice(alloc, b"and ")?;
    push_number(&mut text, count)?;
    push_bytes(&mut text, b" more")?;
    pen.label(alloc, Kind::Object, at, &text)?;
    Ok(at.x.saturating_add(text_width(&text)))
}

/// Says how many effects or events are drawn, unless all are. Returns where the line ends.
pub(crate) fn draw_note(
    alloc: Global,
    pen: &mut Pen,
    scene: Scene,
    y: u32,
) -> Result<u32, NoMemory> {
    let effects = (scene.history.seats.len(), scene.run.effects.len());
    if effects.0 != effects.1 {
        return draw_first(alloc, pen, effects, "effects", y);
    }
    let events = (scene.history.columns.len(), scene.run.replies.len());
    if scene.history.replicas > 0 && events.0 != events.1 {
        return draw_first(alloc, pen, events, "events", y);
    }
    Ok(0)
}

// Says how many of all that a run has are drawn. Returns where the line ends.
fn draw_first(
    alloc: Global,
    pen: &mut Pen,
    counts: (usize, usize),
    what: &str,
    y: u32,
) -> Result<u32, NoMemory> {
    let (drawn, all) = counts;
    let mut text = Vec::from_slice(alloc, b"the first ")?;
    push_number(&mut text, drawn)?;
    push_bytes(&mut text, b" of ")?;
    push_number(&mut text, all)?;
    push_bytes(&mut text, b" ")?;
    push_bytes(&mut text, what.as_bytes())?;
    pen.note(alloc, point(LEFT, y), &text)?;
    Ok(LEFT.saturating_add(text_width(&text)))
}

/// Draws the description of a breach. Returns where the line ends.
pub(crate) fn draw_caption(
    alloc: Global,
    pen: &mut Pen,
    caption: &[u8],
    y: u32,
) -> Result<u32, NoMemory> {
    if caption.is_empty() {
        return Ok(0);
    }
    pen.note(alloc, point(LEFT, y), caption)?;
    let length = caption.len().min(MOST_WORDS) as u32;
    Ok(LEFT.saturating_add(length.saturating_mul(LETTER)))
}
