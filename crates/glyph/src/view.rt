//! A glyph, seen in the lists.
ghost use Rattle.glyph.specs.Views.{Shown};

use crate::component::Component;
use crate::lists::{GlyphKind, GlyphRecord, Lists, Point};
use binary::BoundingBox;

/// A glyph, with its parts of the lists. They are shown whatever its kind, as its record has them.
#[derive(Clone, Copy)]
pub struct GlyphView<'a> {
    pub kind: GlyphKind,
    pub bbox: BoundingBox,
    pub ends: &'a [u16],
    pub points: &'a [Point],
    pub components: &'a [Component],
    pub instructions: &'a [u8],
}

impl GlyphRecord {
    /// The glyph of this record, or `None` where a part of it lies outside its list.
    pub fn view<'a>(self, lists: &'a Lists) -> Option<GlyphView<'a>>
        ensures { Shown self lists.now result }
    {
        Some(GlyphView {
            kind: self.kind,
            bbox: self.bbox,
            ends: self.ends.of(&lists.ends)?,
            points: self.points.of(&lists.points)?,
            components: self.components.of(&lists.components)?,
            instructions: self.instructions.of(&lists.instructions)?,
        })
    }
}
