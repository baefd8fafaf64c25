//! Glyphs and bytes as text.
#![tactic(auto)]

mod component;
mod hex;
mod line;
mod listed;

pub use hex::{Hex, HexError, read_hex};
pub use line::GlyphText;
pub use listed::{Entry, Listed};
