//! A refused table in words.
use glyph::{Cause, NO_GLYPH, Refusal};
use read::error::ParseError;
use std::fmt;

/// A refusal: its number, its glyph, and what to look for.
#[derive(Drop)]
pub struct RefusalText(pub Refusal);

impl fmt::Display for RefusalText {
    fn fmt<W: fmt::Write>(&self, f: &mut fmt::Formatter<W>) -> fmt::Result {
        write!(f, "refused         {} ", self.0.cause.number())?;
        show_place(self.0, f)?;
        write!(f, ": {}", words(self.0.cause))
    }
}

fn show_place<W: fmt::Write>(refusal: Refusal, f: &mut fmt::Formatter<W>) -> fmt::Result {
    match (refusal.cause, refusal.glyph) {
        (Cause::Lists, _) => f.write_str("at no glyph"),
        (_, NO_GLYPH) => f.write_str("before the first glyph"),
        (_, glyph) => write!(f, "at glyph {glyph}"),
    }
}

fn words(cause: Cause) -> &'static str {
    match cause {
        Cause::Parse(ParseError::BadEof) => {
            "a stream ends before what it has to hold: it was cut short, or a size in the header is wrong"
        }
        Cause::Parse(ParseError::BadValue) => {
            "a value breaks a rule: a contour count below -1, a glyph without contours that has a box, a first contour without points, more than 65535 points, or a point outside 16 bits"
        }
        Cause::Parse(ParseError::BadIndex) => "a composite glyph has no box",
        Cause::Parse(ParseError::BadOffset) => "an offset cannot be",
        Cause::Lists => "a list has too few places for the glyphs",
    }
}
