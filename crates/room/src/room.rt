//! The lengths of the lists.
ghost use Rattle.room.specs.Rooms.{Zeroed};
ghost use Rattle.std.specs.Prelude.{IfOk};

use crate::zero;
use binary::LongHorMetric;
use glyph::{GlyphRecord, Lists, Point};
use std::alloc::{AllocError, Global};

/// How many places each list has.
#[derive(Clone, Copy)]
pub struct Room {
    pub records: usize,
    pub ends: usize,
    pub points: usize,
    pub components: usize,
    pub instructions: usize,
    pub full: usize,
    pub tail: usize,
}

impl Room {
    /// Lists of these lengths, every place of them zero.
    pub fn lists(self, heap: Global) -> Result<Lists, AllocError>
        ensures { IfOk result (λ ls. Zeroed self ls) }
    {
        Ok(Lists {
            records: vec![in heap; GlyphRecord::default(); self.records]?,
            ends: vec![in heap; 0; self.ends]?,
            points: vec![in heap; Point::default(); self.points]?,
            components: vec![in heap; zero::COMPONENT; self.components]?,
            instructions: vec![in heap; 0; self.instructions]?,
            full: vec![in heap; LongHorMetric::default(); self.full]?,
            tail: vec![in heap; 0; self.tail]?,
        })
    }
}
