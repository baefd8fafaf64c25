//! The rules for the outline of a simple glyph.
ghost use Rattle.std.specs.Prelude.{◌≡◌, ◌+◌, ◌<◌, ◌-ℤ◌};
ghost use Rattle.glyph.specs.Outlines.{origin, placed, points_in};
ghost use Rattle.held.specs.Tests.{outline_sound, step_fits, steps_fit};

use glyph::Point;

fn in_range(from: i16, to: i16) -> bool
    ensures { result ≡ placed (to -ℤ from) }
{
    to.checked_sub(from).is_some()
}

fn step_fits(last: Point, point: Point) -> bool
    ensures { result ≡ step_fits last point }
{
    in_range(last.x, point.x) && in_range(last.y, point.y)
}

// A loop and no chain of calls: each step goes from the point before.
fn steps_fit(points: &[Point]) -> bool
    ensures { result ≡ steps_fit origin points.now }
{
    let mut last = Point::ORIGIN;
    for point in points {
        if !step_fits(last, *point) {
            return false;
        }
        last = *point;
    }
    true
}

fn points_in(ends: &[u16]) -> usize
    ensures { result ≡ points_in ends.now }
{
    ends.last().map_or(0, |end| usize::from(*end) + 1)
}

/// Whether there are as many points as the ends say, at most 32767 ends, and steps in range.
pub(crate) fn outline_sound(ends: &[u16], points: &[Point]) -> bool
    ensures { result ≡ outline_sound ends.now points.now }
{
    ends.len() <= 32767 && points.len() == points_in(ends) && steps_fit(points)
}
