//! The records of glyphs that lie one behind the other.
ghost use Rattle.std.specs.Prelude.{◌≡◌, ◌^◌, ◌<◌};
ghost use Rattle.glyph.specs.Parts.{end};
ghost use Rattle.glyph.specs.Records.{start};
ghost use Rattle.held.specs.Held.{TellsHeld};
ghost use Rattle.held.specs.Tests.{glyph_sound, held, lies, parts_lie, past, record_held, records_held};

use crate::components::parts_sound;
use crate::outline::outline_sound;
use binary::BoundingBox;
use glyph::{GlyphKind, GlyphRecord, GlyphView, Lists, Part, Places, places_of};

fn glyph_sound(glyph: GlyphView<'_>) -> bool
    ensures { result ≡ glyph_sound glyph.entry.kind glyph.entry.bbox glyph.entry.ends.now glyph.entry.points.now glyph.entry.components.now glyph.entry.instructions.now }
{
    match glyph.kind {
        GlyphKind::Empty => {
            glyph.bbox == BoundingBox::default()
                && glyph.ends.is_empty()
                && glyph.points.is_empty()
                && glyph.components.is_empty()
                && glyph.instructions.is_empty()
        }
        GlyphKind::Simple => {
            glyph.components.is_empty()
                && outline_sound(glyph.ends, glyph.points)
                && glyph.instructions.len() <= 65535
        }
        GlyphKind::Composite => {
            glyph.ends.is_empty()
                && glyph.points.is_empty()
                && parts_sound(glyph.components, glyph.instructions)
        }
    }
}

// A part begins at a place and lies inside a list.
fn lies<T>(at: u32, part: Part, list: &[T]) -> bool
    ensures { result ≡ lies at part list.now }
{
    part.start == at && part.end() <= places_of(list)
}

fn parts_lie(at: Places, glyph_record: GlyphRecord, lists: &Lists) -> bool
    ensures { result ≡ parts_lie at glyph_record lists.now }
{
    lies(at.ends, glyph_record.ends, &lists.ends)
        && lies(at.points, glyph_record.points, &lists.points)
        && lies(at.components, glyph_record.components, &lists.components)
        && lies(
            at.instructions,
            glyph_record.instructions,
            &lists.instructions,
        )
}

fn record_held(at: Places, glyph_record: GlyphRecord, lists: &Lists) -> bool
    ensures { result ≡ record_held at glyph_record lists.now }
{
    parts_lie(at, glyph_record, lists) && glyph_record.view(lists).is_some_and(glyph_sound)
}

// The first free places behind the glyph of a record. By the `requires`, each `as` is exact.
fn past(glyph_record: GlyphRecord) -> Places
    requires { (end glyph_record.ends < 2 ^ 32) × ((end glyph_record.points < 2 ^ 32) × ((end glyph_record.components < 2 ^ 32) × (end glyph_record.instructions < 2 ^ 32))) }
    ensures { result ≡ past glyph_record }
{
    Places {
        ends: glyph_record.ends.end() as u32,
        points: glyph_record.points.end() as u32,
        components: glyph_record.components.end() as u32,
        instructions: glyph_record.instructions.end() as u32,
    }
}

// A loop and no chain of calls: where a record has to lie is known by the record before it.
fn records_held(records: &[GlyphRecord], lists: &Lists) -> bool
    ensures { result ≡ records_held start records.now lists.now }
{
    let mut at = Places::default();
    for glyph_record in records {
        if !record_held(at, *glyph_record, lists) {
            return false;
        }
        at = past(*glyph_record);
    }
    true
}

/// Whether the lists hold so many glyphs: the records of sound glyphs that lie one behind the other from place 0 on,
/// inside the lists.
#[tactic(auto, using(crate::proofs::Holding::tells_held))]
pub fn lists_hold(glyphs: u32, lists: &Lists) -> bool
    ensures answer { result ≡ held glyphs lists.now }
    ensures exact { TellsHeld glyphs lists.now result }
{
    let count = glyphs as usize;
    count <= places_of(&lists.records) && records_held(&lists.records[..count], lists)
}
