//! The forme, which says what the caller's lists hold, and the calls on it.
#![tactic(auto)]

mod forme;
mod transformed;
mod view;

pub use forme::Forme;
pub use glyph::GlyphView;
