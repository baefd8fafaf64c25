//! Refusals and their glyphs.
use glyph::{Cause, at_glyph};
use read::error::ParseError;
use std::test::Fail;

#[test]
fn a_refusal_has_its_glyph(rt: HostRuntime) -> Result<(), Fail> {
    let Err(refusal) = at_glyph::<u8>(65534, Err(ParseError::BadIndex)) else {
        return Err(Fail::new("accepted"));
    };
    assert!(rt; refusal.glyph == 65534 && refusal.cause.number() == 3);
    assert!(rt; refusal.cause == Cause::Parse(ParseError::BadIndex));
    Ok(())
}

#[test]
fn an_accepted_value_is_handed_on(rt: HostRuntime) -> Result<(), Fail> {
    let Ok(value) = at_glyph::<u8>(1, Ok(7)) else {
        return Err(Fail::new("refused"));
    };
    assert!(rt; value == 7 && Cause::Lists.number() == 5);
    Ok(())
}
