//! A component of a composite glyph.
ghost use Rattle.glyph.specs.Arguments.{number_of_argument};
ghost use Rattle.std.specs.Prelude.{◌≡◌};

use binary::F2Dot14;

/// An argument of a component: a signed shift, or the number of a point, in one byte or two.
#[derive(Clone, Copy)]
pub enum CompositeGlyphArgument {
    U8(u8),
    I8(i8),
    U16(u16),
    I16(i16),
}

impl From<CompositeGlyphArgument> for i32 {
    ghost from_gives = { λ a n. n ≡ number_of_argument a };

    fn from(argument: CompositeGlyphArgument) -> i32 {
        match argument {
            CompositeGlyphArgument::U8(number) => i32::from(number),
            CompositeGlyphArgument::I8(shift) => i32::from(shift),
            CompositeGlyphArgument::U16(number) => i32::from(number),
            CompositeGlyphArgument::I16(shift) => i32::from(shift),
        }
    }
}

/// How a component is scaled.
#[derive(Clone, Copy, Default)]
pub enum CompositeGlyphScale {
    #[default]
    None,
    Scale(F2Dot14),
    XY {
        x_scale: F2Dot14,
        y_scale: F2Dot14,
    },
    Matrix {
        xx: F2Dot14,
        xy: F2Dot14,
        yx: F2Dot14,
        yy: F2Dot14,
    },
}

#[derive(Clone, Copy)]
pub struct Component {
    pub flags: u16,
    pub glyph_index: u16,
    pub argument1: CompositeGlyphArgument,
    pub argument2: CompositeGlyphArgument,
    pub scale: CompositeGlyphScale,
}
