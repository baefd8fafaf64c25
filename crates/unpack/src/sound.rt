//! A table as it is read.
ghost use Rattle.std.specs.Prelude.{◌*◌, ◌^◌, ◌<◌, ◌≤◌, length, Ok, Err, MatchResult};
ghost use Rattle.woff2.specs.Transformed.{TakenApart};

use read::error::ParseError;
use woff2::TransformedGlyphTable;

/// A table that was taken apart. Its bitmap has a bit for each glyph, and its components fewer than 2^32 bytes.
#[derive(Clone, Copy)]
pub(crate) struct SoundTable<'a> {
    pub(crate) table: TransformedGlyphTable<'a>,
    ghost bit_for_each: { table.header.num_glyphs ≤ 8 * length table.bbox_bitmap.bytes.now },
    ghost composites_fit: { length table.composites.bytes.now < 2 ^ 32 },
}

impl<'a> SoundTable<'a> {
    /// Takes a table apart.
    pub(crate) fn read(data: &'a [u8]) -> Result<SoundTable<'a>, ParseError>
        ensures { MatchResult result (λ t. TakenApart «data».now (Ok t.table)) (λ e. TakenApart «data».now (Err e)) }
    {
        let table = TransformedGlyphTable::read(data)?;
        Ok(SoundTable { table })
    }
}
