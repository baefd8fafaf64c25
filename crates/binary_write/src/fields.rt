//! Fields written to any sink.
ghost use Rattle.write.specs.Sinks.{Puts};

use binary::{BoundingBox, F2Dot14, I8, I16Be, LongHorMetric, U8, U16Be, U32Be};
use read::ReadUnchecked;
use write::WriteContext;
use write::error::WriteError;

/// A kind of field that can be written: the bytes that spell the value, all of them or none.
pub trait WriteBinary: ReadUnchecked {
    fn write<C: WriteContext>(ctxt: &mut C, value: Self::HostType) -> Result<(), WriteError>
        ensures { Puts C.WriteContext.meaning (Self.ReadUnchecked.encode value) ctxt.old result ctxt.new };
}

// Each number has an impl of its own, as where it is read.
impl WriteBinary for U8 {
    fn write<C: WriteContext>(ctxt: &mut C, value: u8) -> Result<(), WriteError> {
        ctxt.write_bytes(&[value])
    }
}

impl WriteBinary for I8 {
    fn write<C: WriteContext>(ctxt: &mut C, value: i8) -> Result<(), WriteError> {
        ctxt.write_bytes(&i8::to_be_bytes(value))
    }
}

impl WriteBinary for U16Be {
    fn write<C: WriteContext>(ctxt: &mut C, value: u16) -> Result<(), WriteError> {
        ctxt.write_bytes(&u16::to_be_bytes(value))
    }
}

impl WriteBinary for I16Be {
    fn write<C: WriteContext>(ctxt: &mut C, value: i16) -> Result<(), WriteError> {
        ctxt.write_bytes(&i16::to_be_bytes(value))
    }
}

impl WriteBinary for U32Be {
    fn write<C: WriteContext>(ctxt: &mut C, value: u32) -> Result<(), WriteError> {
        ctxt.write_bytes(&u32::to_be_bytes(value))
    }
}

impl WriteBinary for F2Dot14 {
    fn write<C: WriteContext>(ctxt: &mut C, value: F2Dot14) -> Result<(), WriteError> {
        I16Be::write(ctxt, value.0)
    }
}

impl WriteBinary for BoundingBox {
    fn write<C: WriteContext>(ctxt: &mut C, value: BoundingBox) -> Result<(), WriteError> {
        let corners = [
            value.x_min.to_be_bytes(),
            value.y_min.to_be_bytes(),
            value.x_max.to_be_bytes(),
            value.y_max.to_be_bytes(),
        ];
        ctxt.write_bytes(corners.as_flattened())
    }
}

impl WriteBinary for LongHorMetric {
    fn write<C: WriteContext>(ctxt: &mut C, value: LongHorMetric) -> Result<(), WriteError> {
        let parts = [value.advance_width.to_be_bytes(), value.lsb.to_be_bytes()];
        ctxt.write_bytes(parts.as_flattened())
    }
}
