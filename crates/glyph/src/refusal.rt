//! Refusals of the calls on a forme.
ghost use Rattle.glyph.specs.Causes.{at_glyph, cause_number};
ghost use Rattle.std.specs.Prelude.{◌≡◌};

use read::error::ParseError;

/// The glyph of a refusal that no glyph has: one before the first glyph, or one of the lists.
// A rule of the project: a refusal is told by two numbers, and this is the second where there is no glyph.
pub const NO_GLYPH: u16 = 65535;

/// Why a call was refused.
#[derive(Clone, Copy, PartialEq, Eq, Debug)]
pub enum Cause {
    Parse(ParseError),
    /// A list is too short, or is not the forme's.
    Lists,
}

/// A refused call: the cause, and the glyph at which it was met, or 65535.
#[derive(Clone, Copy, PartialEq, Eq, Debug)]
pub struct Refusal {
    pub cause: Cause,
    pub glyph: u16,
}

impl Cause {
    /// The number under which a refusal is told.
    pub fn number(self) -> u8
        ensures { result ≡ cause_number self }
    {
        // A match: a variant that holds an error can have no number of its own.
        match self {
            Cause::Parse(error) => error.number(),
            Cause::Lists => 5,
        }
    }
}

/// Adds the number of the glyph to what was read of it.
pub fn at_glyph<T>(index: u16, read: Result<T, ParseError>) -> Result<T, Refusal>
    ensures { result ≡ at_glyph index read }
{
    read.map_err(|error| Refusal {
        cause: Cause::Parse(error),
        glyph: index,
    })
}
