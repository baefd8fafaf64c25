//! What stands in a place of the components that nothing was stored in.
use glyph::{Component, CompositeGlyphArgument, CompositeGlyphScale};

// No derive makes this: a variant with a field cannot be a default.
pub(crate) const COMPONENT: Component = Component {
    flags: 0,
    glyph_index: 0,
    argument1: CompositeGlyphArgument::U8(0),
    argument2: CompositeGlyphArgument::U8(0),
    scale: CompositeGlyphScale::None,
};
