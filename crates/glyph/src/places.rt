//! Places in the lists.

/// The first place of each list that no glyph has yet.
// Counted in 32 bits, as a part is. Lengths of lists and sums over them are wider, and are other types.
#[derive(Clone, Copy, Default)]
pub struct Places {
    pub ends: u32,
    pub points: u32,
    pub components: u32,
    pub instructions: u32,
}
