//! A glyph as text.
use crate::hex::Hex;
use crate::listed::Listed;
use binary::BoundingBox;
use forme::GlyphView;
use glyph::GlyphKind;
use std::fmt;

/// A glyph in one line: its kind, and behind it what a glyph of that kind has.
#[derive(Drop)]
pub struct GlyphText<'a>(pub GlyphView<'a>);

impl fmt::Display for GlyphText<'_> {
    fn fmt<W: fmt::Write>(&self, f: &mut fmt::Formatter<W>) -> fmt::Result {
        match self.0.kind {
            GlyphKind::Empty => f.write_str("empty"),
            GlyphKind::Simple => show_simple(self.0, f),
            GlyphKind::Composite => show_composite(self.0, f),
        }
    }
}

fn show_simple<W: fmt::Write>(view: GlyphView<'_>, f: &mut fmt::Formatter<W>) -> fmt::Result {
    f.write_str("simple ")?;
    show_box(view.bbox, f)?;
    write!(
        f,
        " ends {} points {} instructions {}",
        Listed(view.ends),
        Listed(view.points),
        Hex(view.instructions)
    )
}

// What it has differs from what a simple glyph has, and so do the words for it.
fn show_composite<W: fmt::Write>(view: GlyphView<'_>, f: &mut fmt::Formatter<W>) -> fmt::Result {
    f.write_str("composite ")?;
    show_box(view.bbox, f)?;
    write!(
        f,
        " components {} instructions {}",
        Listed(view.components),
        Hex(view.instructions)
    )
}

fn show_box<W: fmt::Write>(bbox: BoundingBox, f: &mut fmt::Formatter<W>) -> fmt::Result {
    write!(
        f,
        "box {} {} {} {}",
        bbox.x_min, bbox.y_min, bbox.x_max, bbox.y_max
    )
}
