//! The eight kinds of field with a fixed size, highest byte first.
ghost use Rattle.std.specs.Prelude.{◌^◌, ◌<◌, FitsSigned};
ghost use Rattle.binary.specs.Bytes.{u8_said, i8_said, u16_said, i16_said, u32_said, f2dot14_said, box_said, metric_said, u8_bytes, i8_bytes, u16_bytes, i16_bytes, u32_bytes, f2dot14_bytes, box_bytes, metric_bytes};
ghost use Rattle.std.specs.Int.{w8, w16};
ghost use Rattle.std.proofs.Common.{◌∙◌, arith, rules};
ghost use Rattle.std.proofs.lemmas.List.{take_all};
ghost use Rattle.binary.specs.Spellings.{u8_again, i8_again, u16_again, i16_again, u32_again, box_again, metric_again};

use crate::{BoundingBox, F2Dot14, I8, I16Be, LongHorMetric, U8, U16Be, U32Be, size};
use read::ReadUnchecked;

// Each number has an impl of its own. One generic impl would need a trait of numbers, and the
// impls of that trait would give the same members again.
impl ReadUnchecked for U8 {
    type HostType = u8;

    const SIZE: usize = size::U8;

    ghost SIZE = { 1 };

    ghost good = { λ v. v < 2 ^ 8 };

    ghost encode = { u8_bytes };

    ghost decode = { u8_said };

    ghost read_back = { Prim.search rules };

    ghost exact = { Prim.search rules };

    ghost write_back = { λ bs len ok. u8_again bs (omega arith) ∙ take_all 1 bs (omega arith) };

    ghost some = { Prim.search rules };

    fn read_unchecked(bytes: &[u8]) -> u8 {
        u8::from_be_bytes([bytes[0]])
    }
}

impl ReadUnchecked for I8 {
    type HostType = i8;

    const SIZE: usize = size::I8;

    ghost SIZE = { 1 };

    ghost good = { λ v. FitsSigned w8 v };

    ghost encode = { i8_bytes };

    ghost decode = { i8_said };

    ghost read_back = { Prim.search rules };

    ghost exact = { Prim.search rules };

    ghost write_back = { λ bs len ok. i8_again bs (omega arith) ok ∙ take_all 1 bs (omega arith) };

    ghost some = { Prim.search rules };

    fn read_unchecked(bytes: &[u8]) -> i8 {
        i8::from_be_bytes([bytes[0]])
    }
}

impl ReadUnchecked for U16Be {
    type HostType = u16;

    const SIZE: usize = size::U16;

    ghost SIZE = { 2 };

    ghost good = { λ v. v < 2 ^ 16 };

    ghost encode = { u16_bytes };

    ghost decode = { u16_said };

    ghost read_back = { Prim.search rules };

    ghost exact = { Prim.search rules };

    ghost write_back = { λ bs len ok. u16_again bs (omega arith) ok ∙ take_all 2 bs (omega arith) };

    ghost some = { Prim.search rules };

    fn read_unchecked(bytes: &[u8]) -> u16 {
        u16::from_be_bytes([bytes[0], bytes[1]])
    }
}

impl ReadUnchecked for I16Be {
    type HostType = i16;

    const SIZE: usize = size::I16;

    ghost SIZE = { 2 };

    ghost good = { λ v. FitsSigned w16 v };

    ghost encode = { i16_bytes };

    ghost decode = { i16_said };

    ghost read_back = { Prim.search rules };

    ghost exact = { Prim.search rules };

    ghost write_back = { λ bs len ok. i16_again bs (omega arith) ok ∙ take_all 2 bs (omega arith) };

    ghost some = { Prim.search rules };

    fn read_unchecked(bytes: &[u8]) -> i16 {
        i16::from_be_bytes([bytes[0], bytes[1]])
    }
}

impl ReadUnchecked for U32Be {
    type HostType = u32;

    const SIZE: usize = size::U32;

    ghost SIZE = { 4 };

    ghost good = { λ v. v < 2 ^ 32 };

    ghost encode = { u32_bytes };

    ghost decode = { u32_said };

    ghost read_back = { Prim.search rules };

    ghost exact = { Prim.search rules };

    ghost write_back = { λ bs len ok. u32_again bs (omega arith) ok ∙ take_all 4 bs (omega arith) };

    ghost some = { Prim.search rules };

    fn read_unchecked(bytes: &[u8]) -> u32 {
        u32::from_be_bytes([bytes[0], bytes[1], bytes[2], bytes[3]])
    }
}

impl ReadUnchecked for F2Dot14 {
    type HostType = F2Dot14;

    const SIZE: usize = size::F2DOT14;

    ghost SIZE = { 2 };

    ghost good = { λ v. FitsSigned w16 v.0 };

    ghost encode = { f2dot14_bytes };

    ghost decode = { f2dot14_said };

    ghost read_back = { Prim.search rules };

    ghost exact = { Prim.search rules };

    ghost write_back = { λ bs len ok. i16_again bs (omega arith) ok ∙ take_all 2 bs (omega arith) };

    ghost some = { Prim.search rules };

    fn read_unchecked(bytes: &[u8]) -> F2Dot14 {
        F2Dot14(I16Be::read_unchecked(bytes))
    }
}

impl ReadUnchecked for BoundingBox {
    type HostType = BoundingBox;

    const SIZE: usize = size::BOUNDING_BOX;

    ghost SIZE = { 8 };

    ghost good = { λ b. FitsSigned w16 b.x_min × FitsSigned w16 b.y_min × FitsSigned w16 b.x_max × FitsSigned w16 b.y_max };

    ghost encode = { box_bytes };

    ghost decode = { box_said };

    ghost read_back = { Prim.search rules };

    ghost exact = { Prim.search rules };

    ghost write_back = { λ bs len ok. box_again bs ok len };

    ghost some = { Prim.search rules };

    fn read_unchecked(bytes: &[u8]) -> BoundingBox {
        BoundingBox {
            x_min: I16Be::read_unchecked(&bytes[0..2]),
            y_min: I16Be::read_unchecked(&bytes[2..4]),
            x_max: I16Be::read_unchecked(&bytes[4..6]),
            y_max: I16Be::read_unchecked(&bytes[6..8]),
        }
    }
}

impl ReadUnchecked for LongHorMetric {
    type HostType = LongHorMetric;

    const SIZE: usize = size::LONG_HOR_METRIC;

    ghost SIZE = { 4 };

    ghost good = { λ m. (m.advance_width < 2 ^ 16) × FitsSigned w16 m.lsb };

    ghost encode = { metric_bytes };

    ghost decode = { metric_said };

    ghost read_back = { Prim.search rules };

    ghost exact = { Prim.search rules };

    ghost write_back = { λ bs len ok. metric_again bs ok len };

    ghost some = { Prim.search rules };

    fn read_unchecked(bytes: &[u8]) -> LongHorMetric {
        LongHorMetric {
            advance_width: U16Be::read_unchecked(&bytes[0..2]),
            lsb: I16Be::read_unchecked(&bytes[2..4]),
        }
    }
}
