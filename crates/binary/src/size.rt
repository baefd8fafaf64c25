//! The sizes of the kinds of field, in bytes.
// Public names, which stay. Each is the `SIZE` of its kind.
pub const U8: usize = 1;

pub const I8: usize = 1;

pub const U16: usize = 2;

pub const I16: usize = 2;

pub const U32: usize = 4;

pub const F2DOT14: usize = 2;

pub const BOUNDING_BOX: usize = 8;

pub const LONG_HOR_METRIC: usize = 4;
