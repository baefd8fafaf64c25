//! The kinds of field in the tables of a font.
#![tactic(auto)]

mod fields;
pub mod size;

/// Unsigned 8-bit binary type.
pub enum U8 {}

/// Signed 8-bit binary type.
pub enum I8 {}

/// Unsigned 16-bit big endian binary type.
pub enum U16Be {}

/// Signed 16-bit big endian binary type.
pub enum I16Be {}

/// Unsigned 32-bit big endian binary type.
pub enum U32Be {}

/// A signed number of 16 bits, 14 of them a fraction: the raw bits.
#[derive(Clone, Copy, PartialEq, Eq, Default)]
pub struct F2Dot14(pub i16);

#[derive(Clone, Copy, PartialEq, Eq, Default)]
pub struct BoundingBox {
    pub x_min: i16,
    pub y_min: i16,
    pub x_max: i16,
    pub y_max: i16,
}

/// A full horizontal metric: the advance, and the left side bearing.
#[derive(Clone, Copy, PartialEq, Eq, Default)]
pub struct LongHorMetric {
    pub advance_width: u16,
    pub lsb: i16,
}
