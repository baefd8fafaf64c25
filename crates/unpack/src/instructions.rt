//! The instructions of a glyph.
ghost use Rattle.std.specs.Prelude.{◌≡◌, length, Ok, Err, MatchResult};
ghost use Rattle.unpack.specs.Hints.{instructions_said};
ghost use Rattle.glyph.specs.Laying.{laid};

use glyph::lay_all;
use read::ReadCtxt;
use read::error::ParseError;
use woff2::PackedU16;

/// Reads the instructions of a glyph, and lays them. Returns how many bytes they have.
pub(crate) fn read_instructions(
    glyphs: &mut ReadCtxt<'_>,
    stream: &mut ReadCtxt<'_>,
    instructions: &mut [u8],
    at: u32,
) -> Result<u16, ParseError>
    ensures { MatchResult (instructions_said glyphs.old.rest.now stream.old.rest.now) (λ p. (result ≡ Ok (length p.0)) × (glyphs.new.rest.now ≡ p.1) × (stream.new.rest.now ≡ p.2) × (instructions.new ≡ laid at p.0 instructions.old)) (λ e. result ≡ Err e) }
{
    let size = PackedU16::read(glyphs)?;
    let bytes = stream.read_slice(usize::from(size))?;
    lay_all(instructions, at as usize, bytes);
    Ok(size)
}
