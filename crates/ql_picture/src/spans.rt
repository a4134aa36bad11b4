use crate::axes::{room_above, room_below};
use crate::grid::Grid;
use crate::kind::{Kind, Style};
use crate::pen::{Pen, point};
use ql_base::NoMemory;
use ql_history::{History, Span};

const GROUPS: u32 = 4;

// An interval of coordinates.
#[derive(Clone, Copy)]
struct Reach {
    from: u32,
    to: u32,
}

/// The background of each replica in each partition, and a wall between neighbours in different groups.
pub(crate) fn draw_spans(pen: &mut Pen, history: &History, grid: &Grid) -> Result<(), NoMemory> {
    for span in &history.spans {
        let across = Reach {
            from: grid.x(span.first),
            to: span.last.map_or(grid.right(), |last| grid.x(last)),
        };
        draw_grounds(pen, grid, span, across)?;
        draw_walls(pen, grid, span, across)?;
    }
    Ok(())
}

fn draw_grounds(pen: &mut Pen, grid: &Grid, span: &Span, across: Reach) -> Result<(), NoMemory> {
    let mut replica = 0u32;
    for group in &span.groups {
        let down = band_of(grid, replica);
        let style = Style {
            kind: Kind::Band,
            colour: *group % GROUPS,
        };
        let size = point(
            across.to.saturating_sub(across.from),
            down.to.saturating_sub(down.from),
        );
        pen.rect(style, point(across.from, down.from), size)?;
        replica = replica.saturating_add(1);
    }
    Ok(())
}

fn draw_walls(pen: &mut Pen, grid: &Grid, span: &Span, across: Reach) -> Result<(), NoMemory> {
    let mut replica = 0u32;
    let mut before = None;
    for group in &span.groups {
        if before.is_some_and(|other| other != *group) {
            let y = band_of(grid, replica).from;
            pen.line(Kind::Wall, point(across.from, y), point(across.to, y))?;
        }
        before = Some(*group);
        replica = replica.saturating_add(1);
    }
    Ok(())
}

// The interval of y coordinates that the rows of a replica take.
fn band_of(grid: &Grid, replica: u32) -> Reach {
    let mut from = u32::MAX;
    let mut to = 0u32;
    for (lane, y) in grid.lanes.iter().zip(grid.rows.iter()) {
        if lane.replica == replica {
            from = from.min(y.saturating_sub(room_above(*lane)));
            to = to.max(y.saturating_add(room_below(*lane)));
        }
    }
    Reach {
        from: from.min(to),
        to,
    }
}
