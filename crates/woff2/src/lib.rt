//! Reading of the WOFF2 font format: the transformed glyf table.
#![tactic(auto)]

mod bits;
mod header;
mod packed;
mod table;

pub use bits::BitSlice;
pub use header::{GlyfHeader, Span};
pub use packed::PackedU16;
pub use table::TransformedGlyphTable;
