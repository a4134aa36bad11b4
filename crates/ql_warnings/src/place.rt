ghost use Rattle.std.specs.Prelude.{◌≡◌, ◌<◌, ◌≤◌, ◌^◌, MatchOption, count_by, length, reverse};
ghost use Rattle.std.specs.List.{prefix_len};
ghost use Rattle.ql_warnings.specs.Places.{IsPlaceOf, ends_line, in_line};

use crate::warning::Place;

/// The line and the column of an offset; none past the end of the source.
pub(crate) fn place_in(source: &[u8], at: u32) -> Option<Place>
    requires { length source.now < 2 ^ 32 }
    ensures { MatchOption result (length source.now ≤ at)
        (λ place. IsPlaceOf source.now place × (place.at ≡ at)) }
{
    if (at as usize) < source.len() {
        Some(place_of(source, at))
    } else {
        None
    }
}

fn place_of(source: &[u8], at: u32) -> Place
    requires few { length source.now < 2 ^ 32 }
    requires within { at < length source.now }
    ensures place { IsPlaceOf source.now result }
    ensures same { result.at ≡ at }
{
    let before = &source[..at as usize];
    Place {
        at,
        line: ends_of_lines(before) as u32 + 1,
        column: last_line(before) as u32 + 1,
    }
}

fn ends_of_lines(text: &[u8]) -> usize
    ensures count { result ≡ count_by ends_line text.now }
    ensures few { result ≤ length text.now }
{
    text.iter().filter(|b| **b == b'\n').count()
}

// The length in bytes of the last line.
fn last_line(text: &[u8]) -> usize
    ensures count { result ≡ prefix_len in_line (reverse text.now) }
    ensures few { result ≤ length text.now }
{
    text.iter().rev().take_while(|b| **b != b'\n').count()
}
