//! A glyph of any kind.
ghost use Rattle.std.specs.Prelude.{◌≡◌};
ghost use Rattle.unpack.specs.Contents.{in_slots, SameLent};
ghost use Rattle.unpack.specs.Cursors.{left};
ghost use Rattle.unpack.specs.Glyphs.{glyph_said};
ghost use Rattle.unpack.specs.Taken.{box_by, GlyphRead, own_points, record_by};

use crate::shapes::{read_composite, read_simple};
use crate::slots::Slots;
use crate::streams::Streams;
use crate::taken::Taken;
use binary::{BoundingBox, I16Be};
use glyph::{GlyphRecord, Part, Places, Point, bounding_box};
use read::error::ParseError;

/// Reads the next glyph, whose bit in the bitmap of boxes is `boxed`, and lays it from the places `at` on.
// Streams, slots and places are separate parameters: what reads a field of a glyph borrows its streams and its list
// alone, so a struct of all three would be taken apart at every such call.
pub(crate) fn read_glyph(
    streams: &mut Streams<'_>,
    boxed: bool,
    slots: &mut Slots<'_>,
    at: Places,
) -> Result<Taken, ParseError>
    ensures same_lent { SameLent slots.old slots.new }
    ensures read { GlyphRead boxed (glyph_said boxed (left streams.old)) at (left streams.old) (left streams.new) (in_slots slots.old) (in_slots slots.new) result }
{
    match streams.contours.read::<I16Be>()? {
        contours @ 1.. => read_simple(streams, boxed, contours.cast_unsigned(), slots, at),
        -1 => read_composite(streams, boxed, slots, at),
        0 if !boxed => Ok(Taken::default()),
        _ => Err(ParseError::BadValue),
    }
}

/// The record of a glyph that lies from `at` on. A box that the table does not have is worked out from the points.
pub(crate) fn record_of(taken: Taken, points: &[Point], at: Places) -> GlyphRecord
    ensures { result ≡ record_by taken points.now at }
{
    let bbox = box_of(taken.bbox, own_points(points, at.points, taken.points));
    GlyphRecord {
        kind: taken.kind,
        bbox,
        ends: Part {
            start: at.ends,
            len: u32::from(taken.ends),
        },
        points: Part {
            start: at.points,
            len: u32::from(taken.points),
        },
        components: Part {
            start: at.components,
            len: taken.components,
        },
        instructions: Part {
            start: at.instructions,
            len: u32::from(taken.instructions),
        },
    }
}

fn box_of(own: Option<BoundingBox>, points: &[Point]) -> BoundingBox
    ensures { result ≡ box_by own points.now }
{
    own.unwrap_or_else(|| bounding_box(points))
}

// The points of a glyph, where the list has them all.
fn own_points<'a>(points: &'a [Point], start: u32, len: u16) -> &'a [Point]
    ensures { result.now ≡ own_points points.now start len }
{
    let part = Part {
        start,
        len: u32::from(len),
    };
    part.of(points).unwrap_or(&[])
}
