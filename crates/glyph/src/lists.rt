//! The lists that a caller supplies.
use crate::component::Component;
use binary::{BoundingBox, LongHorMetric};

/// A point, by its position and not by the step from the point before.
#[derive(Clone, Copy, Default)]
pub struct Point {
    pub x: i16,
    pub y: i16,
    pub on_curve: bool,
}

impl Point {
    /// The first point is a pair of steps from here.
    pub const ORIGIN: Point = Point {
        x: 0,
        y: 0,
        on_curve: true,
    };
}

#[derive(Clone, Copy, Default, PartialEq, Eq)]
pub enum GlyphKind {
    #[default]
    Empty,
    Simple,
    Composite,
}

/// A part of a list: where it begins, and how many places it has.
// Numbers and no slice: a record lies in a list beside those that its parts are of, and the caller owns them all.
#[derive(Clone, Copy, Default)]
pub struct Part {
    pub start: u32,
    pub len: u32,
}

/// A glyph, by its kind, its box, and the parts of the lists that are its own.
// The kind stands beside the parts, since a record in a caller's lists may have any of them, whatever its kind.
#[derive(Clone, Copy, Default)]
pub struct GlyphRecord {
    pub kind: GlyphKind,
    pub bbox: BoundingBox,
    pub ends: Part,
    pub points: Part,
    pub components: Part,
    pub instructions: Part,
}

/// Memory for glyphs and metrics. Its lengths are the caller's choice and never change.
// Nothing here grows, since the calls on a forme allocate nothing. How many places are used is for the forme to say.
#[derive(Drop)]
pub struct Lists {
    pub records: Vec<GlyphRecord>,
    pub ends: Vec<u16>,
    pub points: Vec<Point>,
    pub components: Vec<Component>,
    pub instructions: Vec<u8>,
    pub full: Vec<LongHorMetric>,
    pub tail: Vec<i16>,
}
