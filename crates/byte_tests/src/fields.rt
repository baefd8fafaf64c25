//! Fields and arrays of them.
use binary::{BoundingBox, F2Dot14, I8, I16Be, LongHorMetric, U8, U16Be, U32Be};
use read::error::ParseError;
use read::{ReadArray, ReadCtxt, ReadScope, ReadUnchecked};
use std::test::Fail;

const BYTES: [u8; 8] = [0xff, 0xfc, 0x80, 0x00, 0x01, 0xf4, 0x7f, 0xff];

fn cursor(bytes: &[u8]) -> ReadCtxt<'_> {
    ReadScope::new(bytes).ctxt()
}

fn expect(holds: bool, fault: &str) -> Result<(), Fail> {
    if holds { Ok(()) } else { Err(Fail::new(fault)) }
}

// A field is refused on fewer bytes than it has, and the cursor stays; on as many it is read, and none is left.
fn at_limits<T: ReadUnchecked>(size: usize) -> Result<(), Fail>
where
    T::HostType: Drop,
{
    for len in 0..size.min(8) {
        let mut ctxt = cursor(&BYTES[0..len]);
        expect(ctxt.read::<T>().is_err(), "a cut field was read")?;
        expect(ctxt.scope().data().len() == len, "the cursor moved")?;
    }
    let mut ctxt = cursor(&BYTES[0..size.min(8)]);
    expect(ctxt.read::<T>().is_ok(), "a whole field was refused")?;
    expect(ctxt.scope().data().len() == 0, "bytes were left")
}

#[test]
fn every_kind_at_its_limits() -> Result<(), Fail> {
    at_limits::<U8>(1)?;
    at_limits::<I8>(1)?;
    at_limits::<U16Be>(2)?;
    at_limits::<I16Be>(2)?;
    at_limits::<U32Be>(4)?;
    at_limits::<F2Dot14>(2)?;
    at_limits::<BoundingBox>(8)?;
    at_limits::<LongHorMetric>(4)
}

#[test]
fn signs_are_kept(rt: HostRuntime) -> Result<(), Fail> {
    let mut ctxt = cursor(&[0xfc, 0xfc, 0xff, 0xfc, 0x80, 0x00]);
    assert_eq!(rt; ctxt.read::<I8>()?, -4);
    assert_eq!(rt; ctxt.read::<U8>()?, 252);
    assert_eq!(rt; ctxt.read::<I16Be>()?, -4);
    assert_eq!(rt; ctxt.read::<I16Be>()?, -32768);
    Ok(())
}

#[test]
fn a_box_and_a_metric(rt: HostRuntime) -> Result<(), Fail> {
    let b = cursor(&BYTES).read::<BoundingBox>()?;
    assert_eq!(rt; b.x_min, -4);
    assert_eq!(rt; b.y_min, -32768);
    assert_eq!(rt; b.x_max, 500);
    assert_eq!(rt; b.y_max, 32767);
    let m = cursor(&BYTES).read::<LongHorMetric>()?;
    assert_eq!(rt; m.advance_width, 65532);
    assert_eq!(rt; m.lsb, -32768);
    Ok(())
}

#[test]
fn an_array_holds_whole_fields(rt: HostRuntime) -> Result<(), Fail> {
    let mut ctxt = cursor(&BYTES);
    let array = ctxt.read_array::<U16Be>(4)?;
    assert_eq!(rt; array.len(), 4);
    assert_eq!(rt; array.get_item(2), Some(500));
    assert_eq!(rt; array.get_item(4), None);
    let mut sum: u32 = 0;
    for value in array.iter() {
        sum = sum.wrapping_add(u32::from(value));
    }
    assert_eq!(rt; sum, 65532 + 32768 + 500 + 32767);
    Ok(())
}

// What holds an array need not say that its kind is a field.
#[derive(Drop)]
struct Held<'a, T> {
    array: ReadArray<'a, T>,
}

#[test]
fn an_array_is_held_where_nothing_is_known_of_its_kind(rt: HostRuntime) -> Result<(), Fail> {
    let held: Held<'_, U16Be> = Held {
        array: cursor(&BYTES).read_array::<U16Be>(2)?,
    };
    assert_eq!(rt; held.array.get_item(1), Some(32768));
    Ok(())
}

#[test]
fn an_array_past_the_end_is_refused(rt: HostRuntime) -> Result<(), Fail> {
    let mut ctxt = cursor(&BYTES);
    assert!(rt; ctxt.read_array::<U16Be>(5).is_err());
    assert!(rt; ctxt.read_array::<U32Be>(usize::MAX).is_err());
    assert_eq!(rt; ctxt.scope().data().len(), 8);
    assert_eq!(rt; ctxt.read_array::<U16Be>(0)?.len(), 0);
    Ok(())
}

#[test]
fn refusals_have_their_numbers(rt: HostRuntime) {
    assert_eq!(rt; ParseError::BadEof.number(), 1);
    assert_eq!(rt; ParseError::BadValue.number(), 2);
    assert_eq!(rt; ParseError::BadIndex.number(), 3);
    assert_eq!(rt; ParseError::BadOffset.number(), 4);
}
