//! A glyph of each kind.
ghost use Rattle.std.specs.Prelude.{◌≡◌, length, Ok, Err, MatchResult};
ghost use Rattle.glyph.specs.Laying.{laid};
ghost use Rattle.unpack.specs.Contents.{in_slots, SameLent};
ghost use Rattle.unpack.specs.Cursors.{left};
ghost use Rattle.unpack.specs.Glyphs.{composite_said, marked_instructions, simple_said};
ghost use Rattle.unpack.specs.Taken.{box_field, GlyphRead};

use crate::instructions::read_instructions;
use crate::outline::{read_ends, read_points};
use crate::parts::read_components;
use crate::slots::Slots;
use crate::streams::Streams;
use crate::taken::Taken;
use binary::BoundingBox;
use glyph::{GlyphKind, Places};
use read::ReadCtxt;
use read::error::ParseError;

// A glyph's own box, if its bit is set. An `if`: the contract of `bool::then` does not say that where the bit is not set
// the stream is as it was.
fn own_box(boxed: bool, boxes: &mut ReadCtxt<'_>) -> Result<Option<BoundingBox>, ParseError>
    ensures { MatchResult (box_field boxed boxes.old.rest.now) (λ p. (result ≡ Ok p.0) × (boxes.new.rest.now ≡ p.1)) (λ e. result ≡ Err e) }
{
    if boxed {
        Ok(Some(boxes.read::<BoundingBox>()?))
    } else {
        Ok(None)
    }
}

/// Reads a simple glyph behind its contour count, and lays it.
pub(crate) fn read_simple(
    streams: &mut Streams<'_>,
    boxed: bool,
    contours: u16,
    slots: &mut Slots<'_>,
    at: Places,
) -> Result<Taken, ParseError>
    ensures same_lent { SameLent slots.old slots.new }
    ensures read { GlyphRead boxed (simple_said boxed contours (left streams.old)) at (left streams.old) (left streams.new) (in_slots slots.old) (in_slots slots.new) result }
{
    let count = read_ends(&mut streams.points, contours, slots.ends, at.ends)?;
    let flags = streams.flags.read_slice(usize::from(count))?;
    read_points(flags, &mut streams.glyphs, slots.points, at.points)?;
    let hints = read_instructions(
        &mut streams.glyphs,
        &mut streams.instructions,
        slots.instructions,
        at.instructions,
    )?;
    let bbox = own_box(boxed, &mut streams.boxes)?;
    Ok(Taken {
        kind: GlyphKind::Simple,
        bbox,
        ends: contours,
        points: count,
        // A simple glyph has no components.
        components: 0,
        instructions: hints,
    })
}

// The instructions of a composite glyph, which has them only if a component says so. An `if`: the contract of
// `bool::then` does not say that where none says so the streams and the list are as they were.
fn read_marked(
    mark: bool,
    glyphs: &mut ReadCtxt<'_>,
    stream: &mut ReadCtxt<'_>,
    instructions: &mut [u8],
    at: u32,
) -> Result<u16, ParseError>
    ensures { MatchResult (marked_instructions mark glyphs.old.rest.now stream.old.rest.now) (λ p. (result ≡ Ok (length p.0)) × (glyphs.new.rest.now ≡ p.1) × (stream.new.rest.now ≡ p.2) × (instructions.new ≡ laid at p.0 instructions.old)) (λ e. result ≡ Err e) }
{
    if mark {
        read_instructions(glyphs, stream, instructions, at)
    } else {
        Ok(0)
    }
}

/// Reads a composite glyph behind its contour count, and lays it.
pub(crate) fn read_composite(
    streams: &mut Streams<'_>,
    boxed: bool,
    slots: &mut Slots<'_>,
    at: Places,
) -> Result<Taken, ParseError>
    ensures same_lent { SameLent slots.old slots.new }
    ensures read { GlyphRead boxed (composite_said boxed (left streams.old)) at (left streams.old) (left streams.new) (in_slots slots.old) (in_slots slots.new) result }
{
    let (count, mark) = read_components(&mut streams.composites, slots.components, at.components)?;
    let hints = read_marked(
        mark,
        &mut streams.glyphs,
        &mut streams.instructions,
        slots.instructions,
        at.instructions,
    )?;
    let Some(bbox) = own_box(boxed, &mut streams.boxes)? else {
        return Err(ParseError::BadIndex);
    };
    Ok(Taken {
        kind: GlyphKind::Composite,
        bbox: Some(bbox),
        // A composite glyph has no outline.
        ends: 0,
        points: 0,
        components: count as u32,
        instructions: hints,
    })
}
