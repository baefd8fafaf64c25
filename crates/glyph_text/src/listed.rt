//! Lists as text.
use binary::LongHorMetric;
use glyph::Point;
use std::fmt;

/// What can stand in a list that is shown. `Display` can be written only beside its type, and the types of some lists are
/// of other crates.
pub trait Entry {
    fn show<W: fmt::Write>(&self, f: &mut fmt::Formatter<W>) -> fmt::Result;
}

/// A list: its entries joined by `;`, or `-` where it has none.
#[derive(Drop)]
pub struct Listed<'a, T>(pub &'a [T]);

impl<T: Entry> fmt::Display for Listed<'_, T> {
    fn fmt<W: fmt::Write>(&self, f: &mut fmt::Formatter<W>) -> fmt::Result {
        if self.0.is_empty() {
            return f.write_str("-");
        }
        for (place, entry) in self.0.iter().enumerate() {
            if place > 0 {
                f.write_str(";")?;
            }
            entry.show(f)?;
        }
        Ok(())
    }
}

impl Entry for u16 {
    fn show<W: fmt::Write>(&self, f: &mut fmt::Formatter<W>) -> fmt::Result {
        write!(f, "{self}")
    }
}

impl Entry for i16 {
    fn show<W: fmt::Write>(&self, f: &mut fmt::Formatter<W>) -> fmt::Result {
        write!(f, "{self}")
    }
}

impl Entry for Point {
    fn show<W: fmt::Write>(&self, f: &mut fmt::Formatter<W>) -> fmt::Result {
        write!(f, "{},{},{}", self.x, self.y, u8::from(self.on_curve))
    }
}

impl Entry for LongHorMetric {
    fn show<W: fmt::Write>(&self, f: &mut fmt::Formatter<W>) -> fmt::Result {
        write!(f, "{},{}", self.advance_width, self.lsb)
    }
}
