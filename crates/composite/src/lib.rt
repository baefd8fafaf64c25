//! Components of composite glyphs, as both forms of the glyf table hold them.
#![tactic(auto)]

ghost use Rattle.std.specs.Prelude.{◌≡◌, negsuc, take};
ghost use Rattle.composite.specs.Components.{argument_said, argument_size, ByteFc, component_said, component_size, flags_said, has, Reads, scale_said, scale_size};
ghost use Rattle.glyph.specs.declared.component.CompositeGlyphArgument.TheVariants.{I8 as I8Argument};
ghost use Rattle.read.specs.Reading.{Takes};
ghost use Rattle.read.specs.declared.error.ParseError.TheVariants.{BadEof};

use binary::{F2Dot14, I8, I16Be, U8, U16Be};
use glyph::{Component, CompositeGlyphArgument, CompositeGlyphScale};
use read::ReadCtxt;
use read::error::ParseError;

// Masks over a plain number: a component's flags are public, and contracts read them as the number that they are.
/// The arguments are words and not bytes.
pub const ARG_1_AND_2_ARE_WORDS: u16 = 0x0001;
/// The arguments are a signed shift in x and y.
pub const ARGS_ARE_XY_VALUES: u16 = 0x0002;

pub const WE_HAVE_A_SCALE: u16 = 0x0008;
/// Another component follows.
pub const MORE_COMPONENTS: u16 = 0x0020;

pub const WE_HAVE_AN_X_AND_Y_SCALE: u16 = 0x0040;

pub const WE_HAVE_A_TWO_BY_TWO: u16 = 0x0080;

pub const WE_HAVE_INSTRUCTIONS: u16 = 0x0100;
/// Bits outside these say nothing.
pub const KEPT_FLAGS: u16 = 0x1fef;

/// Whether at least one of the flags of a mask is set.
pub fn has(flags: u16, mask: u16) -> bool
    ensures { result ≡ has flags mask }
{
    flags & mask != 0
}

fn read_argument(ctxt: &mut ReadCtxt<'_>, flags: u16) -> Result<CompositeGlyphArgument, ParseError>
    ensures { Takes (argument_size flags) (λ a bs. a ≡ argument_said flags bs) BadEof ctxt.old.rest.now result ctxt.new.rest.now }
{
    if has(flags, ARG_1_AND_2_ARE_WORDS) {
        if has(flags, ARGS_ARE_XY_VALUES) {
            Ok(CompositeGlyphArgument::I16(ctxt.read::<I16Be>()?))
        } else {
            Ok(CompositeGlyphArgument::U16(ctxt.read::<U16Be>()?))
        }
    } else if has(flags, ARGS_ARE_XY_VALUES) {
        Ok(CompositeGlyphArgument::I8(ctxt.read::<I8>()?))
    } else {
        Ok(CompositeGlyphArgument::U8(ctxt.read::<U8>()?))
    }
}

fn read_scale(ctxt: &mut ReadCtxt<'_>, flags: u16) -> Result<CompositeGlyphScale, ParseError>
    ensures { Reads (scale_size flags) (λ s. s ≡ scale_said flags (take (scale_size flags) ctxt.old.rest.now)) BadEof ctxt.old.rest.now result ctxt.new.rest.now }
{
    if has(flags, WE_HAVE_A_SCALE) {
        Ok(CompositeGlyphScale::Scale(ctxt.read::<F2Dot14>()?))
    } else if has(flags, WE_HAVE_AN_X_AND_Y_SCALE) {
        Ok(CompositeGlyphScale::XY {
            x_scale: ctxt.read::<F2Dot14>()?,
            y_scale: ctxt.read::<F2Dot14>()?,
        })
    } else if has(flags, WE_HAVE_A_TWO_BY_TWO) {
        Ok(CompositeGlyphScale::Matrix {
            xx: ctxt.read::<F2Dot14>()?,
            xy: ctxt.read::<F2Dot14>()?,
            yx: ctxt.read::<F2Dot14>()?,
            yy: ctxt.read::<F2Dot14>()?,
        })
    } else {
        Ok(CompositeGlyphScale::None)
    }
}

/// Reads a component.
pub fn read_component(ctxt: &mut ReadCtxt<'_>) -> Result<Component, ParseError>
    ensures { Takes (component_size (flags_said ctxt.old.rest.now)) (λ c _. c ≡ component_said ctxt.old.rest.now) BadEof ctxt.old.rest.now result ctxt.new.rest.now }
{
    let mut ahead = *ctxt;
    let component = read_fields(&mut ahead)?;
    *ctxt = ahead;
    Ok(component)
}

fn read_fields(ctxt: &mut ReadCtxt<'_>) -> Result<Component, ParseError>
    ensures { Reads (component_size (flags_said ctxt.old.rest.now)) (λ c. c ≡ component_said ctxt.old.rest.now) BadEof ctxt.old.rest.now result ctxt.new.rest.now }
{
    let flags = ctxt.read::<U16Be>()? & KEPT_FLAGS;
    let glyph_index = ctxt.read::<U16Be>()?;
    let argument1 = read_argument(ctxt, flags)?;
    let argument2 = read_argument(ctxt, flags)?;
    let scale = read_scale(ctxt, flags)?;
    Ok(Component {
        flags,
        glyph_index,
        argument1,
        argument2,
        scale,
    })
}

/// The byte FC as a signed argument. Of the same byte it is stated what it says unsigned.
pub fn byte_fc() -> CompositeGlyphArgument
    ensures { (result ≡ I8Argument (negsuc 3)) × (ByteFc) }
{
    CompositeGlyphArgument::I8(-4)
}
