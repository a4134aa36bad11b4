ghost use Rattle.std.specs.Prelude.{◌≡◌, IfOk};
ghost use Rattle.ql_picture.specs.Dots.{AreDotsOf, dot_of, dot_style, seen};

use crate::grid::Grid;
use crate::kind::{Kind, Style};
use crate::shape::Dot;
use ql_base::NoMemory;
use ql_history::Seat;
use std::alloc::Global;

/// How many colours of objects there are.
pub(crate) const COLOURS: u32 = 8;

/// A dot for each effect, in order.
pub(crate) fn dots_of(alloc: Global, grid: &Grid, seats: &[Seat]) -> Result<Vec<Dot>, NoMemory>
    ensures { IfOk result (λ dots. AreDotsOf grid.now seats.now dots.items) }
{
    let mut dots = Vec::new(alloc);
    for seat in seats {
        dots.push(dot_of(alloc, grid, seat)?)?;
    }
    Ok(dots)
}

fn dot_of(alloc: Global, grid: &Grid, seat: &Seat) -> Result<Dot, NoMemory>
    ensures { IfOk result (λ dot. seen dot ≡ dot_of grid.now seat.now) }
{
    Ok(Dot {
        style: dot_style(seat),
        at: grid.point(seat.spot),
        title: Vec::from_slice(alloc, &seat.title)?,
    })
}

fn dot_style(seat: &Seat) -> Style
    ensures { result ≡ dot_style seat.now }
{
    let kind = if seat.is_strong {
        Kind::StrongEffect
    } else {
        Kind::Effect
    };
    Style {
        kind,
        colour: seat.object % COLOURS,
    }
}
