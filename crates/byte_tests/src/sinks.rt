//! The three sinks, and fields written to them.
use binary::{BoundingBox, I16Be, U16Be};
use binary_write::{WriteBinary, write_array, write_vec};
use read::ReadScope;
use std::test::Fail;
use write::{WriteBuffer, WriteChecksum, WriteContext, WriteCounter};

#[test]
fn a_buffer_exactly_full_and_one_over(rt: HostRuntime) -> Result<(), Fail> {
    let mut buffer = WriteBuffer::new(vec![in rt.alloc(); 9; 4]?);
    assert_eq!(rt; buffer.space(), 4);
    assert!(rt; buffer.write_bytes(&[1, 2, 3]).is_ok());
    assert!(rt; buffer.write_bytes(&[4, 5]).is_err());
    assert!(rt; buffer.write_zeros(2).is_err());
    assert_eq!(rt; buffer.bytes_written(), 3);
    assert!(rt; buffer.write_zeros(1).is_ok());
    assert!(rt; buffer.bytes() == [1, 2, 3, 0].as_slice());
    assert_eq!(rt; buffer.space(), 0);
    assert!(rt; buffer.write_bytes(&[]).is_ok());
    Ok(())
}

#[test]
fn a_counter_to_its_limit(rt: HostRuntime) {
    let mut counter = WriteCounter::new();
    assert!(rt; counter.write_zeros(4294967294).is_ok());
    assert!(rt; counter.write_bytes(&[0, 0]).is_err());
    assert!(rt; counter.write_bytes(&[0]).is_ok());
    assert!(rt; counter.write_zeros(1).is_err());
    assert_eq!(rt; counter.bytes_written(), 4294967295);
    assert_eq!(rt; counter.space(), 0);
}

#[test]
fn a_checksum_fills_the_last_word(rt: HostRuntime) {
    let mut summed = WriteChecksum::new();
    assert_eq!(rt; summed.sum(), 0);
    assert!(rt; summed.write_bytes(&[0xff, 0xff, 0xff, 0xff, 0x01]).is_ok());
    assert_eq!(rt; summed.sum(), 0x00ff_ffff);
    assert!(rt; summed.write_zeros(3).is_ok());
    assert!(rt; summed.write_bytes(&[0, 0, 0, 1]).is_ok());
    assert_eq!(rt; summed.sum(), 0x0100_0000);
    assert_eq!(rt; summed.bytes_written(), 12);
    assert_eq!(rt; summed.space(), 4294967283);
}

#[test]
fn fields_all_or_none(rt: HostRuntime) -> Result<(), Fail> {
    let mut buffer = WriteBuffer::new(vec![in rt.alloc(); 0; 7]?);
    let bbox = BoundingBox {
        x_min: -1,
        y_min: -4,
        x_max: 5,
        y_max: 2,
    };
    assert!(rt; BoundingBox::write(&mut buffer, bbox).is_err());
    assert_eq!(rt; buffer.bytes_written(), 0);
    assert!(rt; write_vec::<I16Be, WriteBuffer>(&mut buffer, &[-4, 252, 1, 2]).is_err());
    assert_eq!(rt; buffer.bytes_written(), 0);
    assert!(rt; write_vec::<I16Be, WriteBuffer>(&mut buffer, &[-4, 252]).is_ok());
    assert!(rt; buffer.bytes() == [0xff, 0xfc, 0x00, 0xfc].as_slice());
    Ok(())
}

#[test]
fn an_array_comes_out_as_it_went_in(rt: HostRuntime) -> Result<(), Fail> {
    let bytes = [0, 1, 2, 3];
    let array = ReadScope::new(&bytes).ctxt().read_array::<U16Be>(2)?;
    let mut buffer = WriteBuffer::new(vec![in rt.alloc(); 0; 5]?);
    assert!(rt; write_array(&mut buffer, &array).is_ok());
    assert!(rt; buffer.bytes() == [0, 1, 2, 3].as_slice());
    assert!(rt; write_array(&mut buffer, &array).is_err());
    assert_eq!(rt; buffer.space(), 1);
    Ok(())
}
