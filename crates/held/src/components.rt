//! The rules for the components of a composite glyph.
ghost use Rattle.composite.specs.Components.{has};
ghost use Rattle.held.specs.Sound.{argument_fits, component_sound, scale_fits};
ghost use Rattle.held.specs.Tests.{chained_on, parts_sound};
ghost use Rattle.std.specs.List.{list_all, list_any};
ghost use Rattle.std.specs.Prelude.{◌≡◌, true};

use composite::{
    ARG_1_AND_2_ARE_WORDS, ARGS_ARE_XY_VALUES, KEPT_FLAGS, MORE_COMPONENTS, WE_HAVE_A_SCALE,
    WE_HAVE_A_TWO_BY_TWO, WE_HAVE_AN_X_AND_Y_SCALE, WE_HAVE_INSTRUCTIONS, has,
};
use glyph::{Component, CompositeGlyphArgument, CompositeGlyphScale};

fn argument_fits(flags: u16, argument: CompositeGlyphArgument) -> bool
    ensures { result ≡ argument_fits flags argument }
{
    let words = has(flags, ARG_1_AND_2_ARE_WORDS);
    let signed = has(flags, ARGS_ARE_XY_VALUES);
    match argument {
        CompositeGlyphArgument::U8(_) => !words && !signed,
        CompositeGlyphArgument::I8(_) => !words && signed,
        CompositeGlyphArgument::U16(_) => words && !signed,
        CompositeGlyphArgument::I16(_) => words && signed,
    }
}

fn scale_fits(flags: u16, scale: CompositeGlyphScale) -> bool
    ensures { result ≡ scale_fits flags scale }
{
    let one = has(flags, WE_HAVE_A_SCALE);
    let two = has(flags, WE_HAVE_AN_X_AND_Y_SCALE);
    let four = has(flags, WE_HAVE_A_TWO_BY_TWO);
    match scale {
        CompositeGlyphScale::None => !one && !two && !four,
        CompositeGlyphScale::Scale(_) => one,
        CompositeGlyphScale::XY { .. } => !one && two,
        CompositeGlyphScale::Matrix { .. } => !one && !two && four,
    }
}

fn component_sound(component: Component) -> bool
    ensures { result ≡ component_sound component }
{
    component.flags & KEPT_FLAGS == component.flags
        && argument_fits(component.flags, component.argument1)
        && argument_fits(component.flags, component.argument2)
        && scale_fits(component.flags, component.scale)
}

// This test and the two below are of one line each. A function that takes the test would be no shorter.
fn each_has_more(components: &[Component]) -> bool
    ensures { result ≡ list_all (λ c. has c.flags 0x0020) components.now }
{
    components
        .iter()
        .all(|component| has(component.flags, MORE_COMPONENTS))
}

// Just the last component lacks `MORE_COMPONENTS`.
fn chained(components: &[Component]) -> bool
    ensures { result ≡ chained_on true components.now }
{
    match components.split_last() {
        Some((last, others)) => !has(last.flags, MORE_COMPONENTS) && each_has_more(others),
        None => false,
    }
}

fn marked(components: &[Component]) -> bool
    ensures { result ≡ list_any (λ c. has c.flags 0x0100) components.now }
{
    components
        .iter()
        .any(|component| has(component.flags, WE_HAVE_INSTRUCTIONS))
}

fn each_sound(components: &[Component]) -> bool
    ensures { result ≡ list_all component_sound components.now }
{
    components
        .iter()
        .all(|component| component_sound(*component))
}

/// Whether components and instructions are those of a composite glyph.
pub(crate) fn parts_sound(components: &[Component], hints: &[u8]) -> bool
    ensures { result ≡ parts_sound components.now hints.now }
{
    chained(components)
        && each_sound(components)
        && hints.len() <= 65535
        && (marked(components) || hints.is_empty())
}
