//! What is wrong with a line.
use glyph_text::HexError;
use std::alloc::AllocError;
use thiserror::Error;

/// Why a line is no command, or one that cannot be followed.
#[derive(Clone, Copy, Debug, Error)]
pub enum Mistake {
    /// No command has this name.
    #[error("command")]
    Command,
    /// The command takes more words, or fewer.
    #[error("arguments")]
    Arguments,
    #[error("number")]
    Number,
    #[error("bytes")]
    Bytes,
    /// A list was asked for that is longer than any use of it.
    #[error("room")]
    Room,
    #[error("memory")]
    Memory,
    /// The line is not in UTF-8.
    #[error("text")]
    Text,
    /// The command is not understood yet.
    #[error("unsupported")]
    Unsupported,
}

impl From<AllocError> for Mistake {
    fn from(_error: AllocError) -> Mistake {
        Mistake::Memory
    }
}

impl From<HexError> for Mistake {
    fn from(error: HexError) -> Mistake {
        match error {
            HexError::NotHex => Mistake::Bytes,
            HexError::NoMemory => Mistake::Memory,
        }
    }
}
