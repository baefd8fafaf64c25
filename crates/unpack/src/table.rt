//! A table into the lists.
ghost use Rattle.std.specs.Prelude.{◌≡◌, Ok, Err, MatchResult};
ghost use Rattle.glyph.specs.Records.{fitting, needed, ReadInto};
ghost use Rattle.read.specs.Answers.{then};
ghost use Rattle.unpack.specs.Contents.{contents};
ghost use Rattle.unpack.specs.Glyphs.{unpacked};
ghost use Rattle.unpack.specs.Runs.{glyphs_in, ListsLaid, RunLaid};

use crate::run::read_glyphs;
use crate::slots::Slots;
use crate::sound::SoundTable;
use glyph::{Cause, Component, GlyphRecord, Lists, NO_GLYPH, Places, Point, Refusal, at_glyph};

/// Reads a transformed glyf table, and lays its glyphs into the lists from their first places on. Returns how many
/// glyphs there are. The whole table is read before anything is stored.
pub fn read_table(data: &[u8], lists: &mut Lists) -> Result<u16, Refusal>
    ensures { ReadInto (unpacked «data».now lists.old) lists.old result lists.new }
{
    let sound = at_glyph(NO_GLYPH, SoundTable::read(data))?;
    fill(&sound, lists)
}

// The first walk only measures: it has no places to lay anything into.
fn fill(sound: &SoundTable<'_>, lists: &mut Lists) -> Result<u16, Refusal>
    ensures { ReadInto (then (glyphs_in sound.now.table) (fitting lists.old)) lists.old result lists.new }
{
    let glyphs = sound.table.header.num_glyphs;
    let needed = read_glyphs(sound, &mut Slots::none())?;
    if !lists.have_room(glyphs, needed) {
        return Err(Refusal {
            cause: Cause::Lists,
            glyph: NO_GLYPH,
        });
    }
    lay_glyphs(sound, lists)?;
    Ok(glyphs)
}

fn lay_glyphs(sound: &SoundTable<'_>, lists: &mut Lists) -> Result<Places, Refusal>
    ensures { MatchResult (glyphs_in sound.now.table) (λ gs. (result ≡ Ok (needed gs)) × ListsLaid gs lists.old lists.new) (λ e. result ≡ Err e) }
{
    lay_slices(
        sound,
        lists.records.as_mut_slice(),
        lists.ends.as_mut_slice(),
        lists.points.as_mut_slice(),
        lists.components.as_mut_slice(),
        lists.instructions.as_mut_slice(),
    )
}

// The slices come one by one: of those that `as_mut_slice` lends straight into a `Slots`, no proof was found of what the
// lists hold afterwards.
fn lay_slices(
    sound: &SoundTable<'_>,
    records: &mut [GlyphRecord],
    ends: &mut [u16],
    points: &mut [Point],
    components: &mut [Component],
    instructions: &mut [u8],
) -> Result<Places, Refusal>
    ensures { MatchResult (glyphs_in sound.now.table) (λ gs. (result ≡ Ok (needed gs)) × RunLaid gs (contents records.old ends.old points.old components.old instructions.old) (contents records.new ends.new points.new components.new instructions.new)) (λ e. result ≡ Err e) }
{
    let mut slots = Slots {
        records,
        ends,
        points,
        components,
        instructions,
    };
    read_glyphs(sound, &mut slots)
}
