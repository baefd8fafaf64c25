//! Glyphs as values, and the lists that hold them.
#![tactic(auto)]

mod bounds;
mod component;
mod laying;
mod lists;
mod part;
mod places;
mod refusal;
mod room;
mod view;

pub use bounds::bounding_box;
pub use component::{Component, CompositeGlyphArgument, CompositeGlyphScale};
pub use laying::{lay, lay_all};
pub use lists::{GlyphKind, GlyphRecord, Lists, Part, Point};
pub use places::Places;
pub use refusal::{Cause, NO_GLYPH, Refusal, at_glyph};
pub use room::{MOST_PLACES, places_of};
pub use view::GlyphView;
