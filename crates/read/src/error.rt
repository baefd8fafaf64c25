//! Errors that originate when reading binary data.
ghost use Rattle.std.specs.Prelude.{◌≡◌};
ghost use Rattle.read.specs.Errors.{number_of};
ghost use Rattle.read.specs.declared.error.ParseError.TheVariants.{BadEof};

/// A read went past the end of its data.
#[derive(Clone, Copy, Debug)]
pub struct ReadEof {}

// The cases have no numbers of their own: those would change what a cast of a case gives. `number` tells a refusal's.
#[derive(Clone, Copy, PartialEq, Eq, Debug)]
pub enum ParseError {
    BadEof,
    BadValue,
    BadIndex,
    BadOffset,
}

impl From<ReadEof> for ParseError {
    ghost from_gives = { λ _ r. r ≡ BadEof };

    fn from(_error: ReadEof) -> ParseError {
        Self::BadEof
    }
}

impl ParseError {
    /// The number under which a refusal is told.
    pub fn number(self) -> u8
        ensures { result ≡ number_of self }
    {
        match self {
            ParseError::BadEof => 1,
            ParseError::BadValue => 2,
            ParseError::BadIndex => 3,
            ParseError::BadOffset => 4,
        }
    }
}
