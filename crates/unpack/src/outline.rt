//! The outline of a simple glyph.
ghost use Rattle.std.specs.Prelude.{◌≡◌, ◌+◌, ◌≤◌, ◌&&◌, [], length, ◌+ℤ◌, Ok, Err, MatchBool, MatchResult, nat_le, nat_lt};
ghost use Rattle.read.specs.declared.error.ParseError.TheVariants.{BadValue};
ghost use Rattle.glyph.specs.Laying.{laid};
ghost use Rattle.unpack.specs.Outlines.{ends_said, point_said, points_said};
ghost use Rattle.glyph.specs.Outlines.{origin, placed};

use glyph::{Point, lay};
use lut::read_steps;
use read::ReadCtxt;
use read::error::ParseError;
use woff2::PackedU16;

/// Reads the sizes of `contours` contours, and lays where each ends. Returns the number of points.
pub(crate) fn read_ends(
    ctxt: &mut ReadCtxt<'_>,
    contours: u16,
    ends: &mut [u16],
    at: u32,
) -> Result<u16, ParseError>
    ensures { MatchResult (ends_said contours [] 0 ctxt.old.rest.now) (λ p. (result ≡ Ok p.1) × (ctxt.new.rest.now ≡ p.2) × (ends.new ≡ laid at p.0 ends.old)) (λ e. result ≡ Err e) }
{
    let mut points: u16 = 0;
    // By number: the sizes lie in a stream, and only reading one shows where the next begins.
    for i in 0..contours {
        let size = PackedU16::read(ctxt)?;
        let sum = next_sum(points, size)?;
        lay(ends, at as usize + usize::from(i), sum - 1);
        points = sum;
    }
    Ok(points)
}

// The points so far with those of one contour more.
fn next_sum(points: u16, size: u16) -> Result<u16, ParseError>
    ensures { MatchBool (nat_lt 0 (points + size) && nat_le (points + size) 65535) (result ≡ Ok (points + size)) (result ≡ Err BadValue) }
{
    points
        .checked_add(size)
        .filter(|sum| *sum > 0)
        .ok_or(ParseError::BadValue)
}

/// Reads a pair of steps for each flag, and lays the points that they lead to.
pub(crate) fn read_points(
    flags: &[u8],
    glyphs: &mut ReadCtxt<'_>,
    points: &mut [Point],
    at: u32,
) -> Result<(), ParseError>
    requires { length flags.now ≤ 65535 }
    ensures { MatchResult (points_said flags.now [] origin glyphs.old.rest.now) (λ p. (result ≡ Ok tt) × (glyphs.new.rest.now ≡ p.1) × (points.new ≡ laid at p.0 points.old)) (λ e. result ≡ Err e) }
{
    let mut last = Point::ORIGIN;
    for (i, flag) in flags.iter().enumerate() {
        let next = read_point(last, *flag, glyphs)?;
        lay(points, at as usize + i, next);
        last = next;
    }
    Ok(())
}

// The point that a flag and its steps lead to, from the one before.
fn read_point(last: Point, flag: u8, glyphs: &mut ReadCtxt<'_>) -> Result<Point, ParseError>
    ensures { MatchResult (point_said last flag glyphs.old.rest.now) (λ p. (result ≡ Ok p.0) × (glyphs.new.rest.now ≡ p.1)) (λ e. result ≡ Err e) }
{
    let (dx, dy) = read_steps(flag, glyphs)?;
    let x = moved(last.x, dx)?;
    let y = moved(last.y, dy)?;
    Ok(Point {
        x,
        y,
        on_curve: flag < 128,
    })
}

// A position and a step from it.
fn moved(from: i16, step: i16) -> Result<i16, ParseError>
    ensures { MatchBool (placed (from +ℤ step)) (result ≡ Ok (from +ℤ step)) (result ≡ Err BadValue) }
{
    from.checked_add(step).ok_or(ParseError::BadValue)
}
