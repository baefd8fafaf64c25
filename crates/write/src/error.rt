//! Errors that originate when writing binary data.
ghost use Rattle.std.specs.Prelude.{◌≡◌};
ghost use Rattle.write.specs.Errors.{number_of};

// The case has no number of its own, as in `ParseError` of `read`.
#[derive(Clone, Copy, PartialEq, Eq)]
pub enum WriteError {
    /// The sink has no space for what was put.
    NoSpace,
}

impl WriteError {
    /// The number under which a refusal is told.
    pub fn number(self) -> u8
        ensures { result ≡ number_of self }
    {
        match self {
            WriteError::NoSpace => 7,
        }
    }
}
