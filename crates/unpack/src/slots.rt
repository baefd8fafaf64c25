//! Where glyphs are laid.
use glyph::{Component, GlyphRecord, Point};

/// Where glyphs are laid: the lists as slices, or none of their places for a walk that only measures.
// `Lists` owns its lists and has two more. That the same slices stay lent is a clause of its own in what lays into them:
// `in_slots` tells what they hold, and not which they are.
#[derive(Drop)]
pub(crate) struct Slots<'a> {
    pub(crate) records: &'a mut [GlyphRecord],
    pub(crate) ends: &'a mut [u16],
    pub(crate) points: &'a mut [Point],
    pub(crate) components: &'a mut [Component],
    pub(crate) instructions: &'a mut [u8],
}

impl<'a> Slots<'a> {
    /// No places.
    pub(crate) fn none() -> Slots<'a> {
        Slots {
            records: &mut [],
            ends: &mut [],
            points: &mut [],
            components: &mut [],
            instructions: &mut [],
        }
    }
}
