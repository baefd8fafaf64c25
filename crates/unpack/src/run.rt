//! Glyphs, one after the other.
ghost use Rattle.std.specs.Prelude.{◌≡◌, ◌+◌, ◌^◌, ◌<◌, ◌≤◌, [], ◌∷◌, length, Ok, Err, MatchResult};
ghost use Rattle.glyph.specs.Causes.{at_glyph};
ghost use Rattle.glyph.specs.Glyphs.{components_of, ends_of, instructions_of, points_of};
ghost use Rattle.glyph.specs.Laying.{laid};
ghost use Rattle.glyph.specs.Records.{behind, needed, record_of};
ghost use Rattle.unpack.specs.Contents.{in_slots, SameLent};
ghost use Rattle.unpack.specs.Cursors.{left};
ghost use Rattle.unpack.specs.Glyphs.{glyph_said};
ghost use Rattle.unpack.specs.Runs.{glyphs_in, RunLaid};
ghost use Rattle.unpack.specs.Taken.{GlyphLaid, taken_behind};

use crate::glyphs::{read_glyph, record_of};
use crate::slots::Slots;
use crate::sound::SoundTable;
use crate::streams::Streams;
use crate::taken::Taken;
use glyph::{Places, Refusal, at_glyph, lay};
use woff2::BitSlice;

/// Reads every glyph of a table, and lays each behind the one before. Returns how many places they need.
pub(crate) fn read_glyphs(sound: &SoundTable<'_>, slots: &mut Slots<'_>) -> Result<Places, Refusal>
    ensures same_lent { SameLent slots.old slots.new }
    ensures read { MatchResult (glyphs_in sound.now.table) (λ gs. (result ≡ Ok (needed gs)) × RunLaid gs (in_slots slots.old) (in_slots slots.new)) (λ e. result ≡ Err e) }
{
    let mut streams = Streams::new(sound);
    let bitmap = BitSlice::new(sound.table.bbox_bitmap.data());
    let mut at = Places::default();
    // By number, which a refusal tells.
    for i in 0..sound.table.header.num_glyphs {
        let boxed = bitmap.get(usize::from(i)).unwrap_or(false);
        at = read_next(&mut streams, boxed, i, slots, at)?;
    }
    Ok(at)
}

// Reads glyph `i`, and lays it and its record. Returns the places behind it.
fn read_next(
    streams: &mut Streams<'_>,
    boxed: bool,
    i: u16,
    slots: &mut Slots<'_>,
    at: Places,
) -> Result<Places, Refusal>
    requires { (at.ends + 65535 < 2 ^ 32) × ((at.points + 65535 < 2 ^ 32) × ((at.instructions + 65535 < 2 ^ 32) × (at.components + length streams.old.composites.rest.now < 2 ^ 32))) }
    ensures same_lent { SameLent slots.old slots.new }
    ensures read { MatchResult (at_glyph i (glyph_said boxed (left streams.old))) (λ p. (result ≡ Ok (behind at p.0)) × (left streams.new ≡ p.1) × GlyphLaid at p.0 (in_slots slots.old) (in_slots slots.new) × (at.points + length (points_of p.0) ≤ length slots.old.points.now → slots.new.records.now ≡ laid i (record_of at p.0 ∷ []) slots.old.records.now) × (length streams.new.composites.rest.now + length (components_of p.0) ≤ length streams.old.composites.rest.now) × (length (ends_of p.0) ≤ 65535) × (length (points_of p.0) ≤ 65535) × (length (instructions_of p.0) ≤ 65535)) (λ e. result ≡ Err e) }
{
    let taken = at_glyph(i, read_glyph(streams, boxed, slots, at))?;
    // Lent anew: of a field that is passed as `&[Point]` a proof knows only the length afterwards.
    let points = &mut *slots.points;
    let record = record_of(taken, points, at);
    lay(slots.records, usize::from(i), record);
    Ok(places_behind(at, taken))
}

fn places_behind(at: Places, taken: Taken) -> Places
    requires { (at.ends + taken.ends < 2 ^ 32) × ((at.points + taken.points < 2 ^ 32) × ((at.components + taken.components < 2 ^ 32) × (at.instructions + taken.instructions < 2 ^ 32))) }
    ensures { result ≡ taken_behind at taken }
{
    Places {
        ends: at.ends + u32::from(taken.ends),
        points: at.points + u32::from(taken.points),
        components: at.components + taken.components,
        instructions: at.instructions + u32::from(taken.instructions),
    }
}
