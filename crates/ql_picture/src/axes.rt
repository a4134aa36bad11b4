use crate::lanes::{Lane, is_in_lane};
use ql_base::{IdSet, NoMemory};
use ql_history::{Column, Spot};
use std::alloc::Global;

/// How many bytes of a text are shown at most.
pub(crate) const MOST_SHOWN: usize = 30;

/// The width of a letter, in pixels.
pub(crate) const LETTER: u32 = 7;

/// Where columns begin, to the right of the names of rows.
pub(crate) const LEFT: u32 = 100;

/// Where rows begin, below the numbers of events.
pub(crate) const TOP: u32 = 34;

// The least space between columns.
const STEP: u32 = 44;

const NARROWEST: u32 = 21;

/// Half of the width of each column, wide enough for the longer of its texts.
pub(crate) fn halves(alloc: Global, columns: &[Column]) -> Result<Vec<u32>, NoMemory> {
    let mut halves = Vec::new(alloc);
    for column in columns {
        halves.push(half_width(&column.above).max(half_width(&column.below)))?;
    }
    Ok(halves)
}

/// Half of the width that a text takes, with some space around it.
pub(crate) fn half_width(text: &[u8]) -> u32 {
    (text_width(text) / 2).saturating_add(9).max(NARROWEST)
}

/// The width that a text takes.
pub(crate) fn text_width(text: &[u8]) -> u32 {
    (text.len().min(MOST_SHOWN) as u32).saturating_mul(LETTER)
}

/// The x coordinates of columns: each to the right of the one before it and of the texts in its own row.
pub(crate) fn column_places(
    alloc: Global,
    columns: &[Column],
    halves: &[u32],
) -> Result<IdSet, NoMemory> {
    let mut places = IdSet::new(alloc);
    let mut next = 0u32;
    for (column, half) in columns.iter().zip(halves.iter()) {
        let free = row_end(columns, places.items(), halves, column.spot);
        let x = next.max(free.saturating_add(*half));
        places.insert(x)?;
        next = x.saturating_add(STEP);
    }
    Ok(places)
}

// Where the texts of a row end, among the columns that have their coordinates.
fn row_end(columns: &[Column], places: &[u32], halves: &[u32], spot: Spot) -> u32 {
    let mut end = LEFT;
    for ((column, x), half) in columns.iter().zip(places.iter()).zip(halves.iter()) {
        if is_in_lane(column.spot, spot) {
            end = end.max(x.saturating_add(*half));
        }
    }
    end
}

/// The y coordinates of rows.
pub(crate) fn row_places(alloc: Global, lanes: &[Lane]) -> Result<Vec<u32>, NoMemory> {
    let mut places = Vec::new(alloc);
    let mut y = TOP;
    for lane in lanes {
        y = y.saturating_add(room_above(*lane));
        places.push(y)?;
        y = y.saturating_add(room_below(*lane));
    }
    Ok(places)
}

/// The height that a row takes above its line.
pub(crate) fn room_above(lane: Lane) -> u32 {
    match lane.session {
        Some(_) => 54,
        None => 36,
    }
}

/// The height that a row takes below its line.
pub(crate) fn room_below(lane: Lane) -> u32 {
    match lane.session {
        Some(_) => 52,
        None => 30,
    }
}
