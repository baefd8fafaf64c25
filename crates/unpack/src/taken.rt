//! What a glyph takes of the lists.
use binary::BoundingBox;
use glyph::GlyphKind;

/// A glyph's kind, its own box if it has one, and how many places it takes of each list.
// The kind stands beside the counts, as in the record that is made of it. Most counts of one glyph have 16 bits.
#[derive(Clone, Copy, Default)]
pub(crate) struct Taken {
    pub(crate) kind: GlyphKind,
    pub(crate) bbox: Option<BoundingBox>,
    pub(crate) ends: u16,
    pub(crate) points: u16,
    pub(crate) components: u32,
    pub(crate) instructions: u16,
}
