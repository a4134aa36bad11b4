ghost use Rattle.std.specs.Prelude.{◌≡◌, slice_index};
ghost use Rattle.ql_picture.specs.Places.{x_of, y_of};

use crate::axes::{LEFT, column_places, halves, row_places};
use crate::lanes::{Lane, lanes_of, row_of};
use crate::shape::Point;
use ql_base::{IdSet, NoMemory};
use ql_history::{History, Spot};
use std::alloc::Global;

/// The coordinates of the columns and rows of a picture. Those of columns are a set of numbers, so they ascend.
#[derive(Drop)]
pub struct Grid {
    /// The x coordinates of columns, and half of the width of each.
    pub columns: IdSet,
    pub halves: Vec<u32>,
    /// The rows, and the y coordinate of each.
    pub lanes: Vec<Lane>,
    pub rows: Vec<u32>,
}

/// The coordinates of what a history shows.
pub fn grid_of(alloc: Global, history: &History) -> Result<Grid, NoMemory> {
    let halves = halves(alloc, &history.columns)?;
    let lanes = lanes_of(alloc, history)?;
    Ok(Grid {
        columns: column_places(alloc, &history.columns, &halves)?,
        halves,
        rows: row_places(alloc, &lanes)?,
        lanes,
    })
}

impl Grid {
    ghost use Rattle.std.specs.Prelude.{◌≡◌};
    ghost use Rattle.ql_picture.specs.Places.{point_of, x_of, y_of};

    /// The x coordinate of a column; 0 where there is none.
    pub(crate) fn x(&self, column: u32) -> u32
        ensures { result ≡ x_of self.now column }
    {
        number_at(self.columns.items(), column as usize)
    }

    /// The y coordinate of a spot's row; 0 where there is none.
    pub(crate) fn y(&self, spot: Spot) -> u32
        ensures { result ≡ y_of self.now spot }
    {
        match row_of(&self.lanes, spot) {
            Some(row) => number_at(&self.rows, row),
            None => 0,
        }
    }

    /// The point of a spot.
    pub(crate) fn point(&self, spot: Spot) -> Point
        ensures { result ≡ point_of self.now spot }
    {
        Point {
            x: self.x(spot.column),
            y: self.y(spot),
        }
    }

    /// The y coordinate of a replica's line.
    pub(crate) fn replica_y(&self, replica: u32) -> u32 {
        self.y(Spot {
            column: 0,
            replica,
            session: None,
        })
    }

    /// Half of the width of a column.
    pub(crate) fn half(&self, column: u32) -> u32 {
        number_at(&self.halves, column as usize)
    }

    /// Where the columns end.
    pub(crate) fn right(&self) -> u32 {
        let mut right = LEFT;
        for (x, half) in self.columns.items().iter().zip(self.halves.iter()) {
            right = right.max(x.saturating_add(*half));
        }
        right
    }
}

// The number at an index, or 0.
fn number_at(numbers: &[u32], at: usize) -> u32
    ensures { result ≡ slice_index numbers.now at }
{
    match numbers.get(at) {
        Some(number) => *number,
        None => 0,
    }
}
