//! A component as text.
use crate::listed::Entry;
use glyph::{Component, CompositeGlyphScale};
use std::fmt;

impl Entry for Component {
    fn show<W: fmt::Write>(&self, f: &mut fmt::Formatter<W>) -> fmt::Result {
        write!(
            f,
            "{:04x}:{}:{},{}:",
            self.flags,
            self.glyph_index,
            i32::from(self.argument1),
            i32::from(self.argument2)
        )?;
        show_scale(self.scale, f)
    }
}

fn show_scale<W: fmt::Write>(scale: CompositeGlyphScale, f: &mut fmt::Formatter<W>) -> fmt::Result {
    match scale {
        CompositeGlyphScale::None => f.write_str("-"),
        CompositeGlyphScale::Scale(scale) => write!(f, "{}", scale.0),
        CompositeGlyphScale::XY { x_scale, y_scale } => write!(f, "{},{}", x_scale.0, y_scale.0),
        CompositeGlyphScale::Matrix { xx, xy, yx, yy } => {
            write!(f, "{},{},{},{}", xx.0, xy.0, yx.0, yy.0)
        }
    }
}
