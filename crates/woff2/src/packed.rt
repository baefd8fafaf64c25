//! 255UInt16, a variable-length encoding of a 16-bit unsigned integer.
ghost use Rattle.read.specs.Reading.{Takes};
ghost use Rattle.read.specs.declared.error.ParseError.TheVariants.{BadEof};
ghost use Rattle.woff2.specs.Packed.{packed_said, packed_size, ThreeFormsOf506};
ghost use Rattle.std.specs.Prelude.{◌≡◌};

use binary::{U8, U16Be};
use read::ReadCtxt;
use read::error::ParseError;

// First bytes that are no number themselves, but say what comes behind them.
const WORD_CODE: u8 = 253;

const ONE_MORE_BYTE_CODE2: u8 = 254;

const ONE_MORE_BYTE_CODE1: u8 = 255;

// The first number that is not its own first byte.
const LOWEST_UCODE: u16 = 253;

/// 255UInt16: one to three bytes, by the first.
pub enum PackedU16 {}

impl PackedU16 {
    /// Reads a number in any of its forms.
    pub fn read(ctxt: &mut ReadCtxt<'_>) -> Result<u16, ParseError>
        ensures { Takes (packed_size ctxt.old.rest.now) (λ v bs. v ≡ packed_said bs) BadEof ctxt.old.rest.now result ctxt.new.rest.now }
    {
        let mut ahead = *ctxt;
        let value = match ahead.read::<U8>()? {
            WORD_CODE => ahead.read::<U16Be>()?,
            ONE_MORE_BYTE_CODE2 => u16::from(ahead.read::<U8>()?) + LOWEST_UCODE * 2,
            ONE_MORE_BYTE_CODE1 => u16::from(ahead.read::<U8>()?) + LOWEST_UCODE,
            code => u16::from(code),
        };
        *ctxt = ahead;
        Ok(value)
    }

    /// A number may have several forms: 506 has one of each length but one byte, and two of two.
    pub fn three_forms_of_506() -> u16
        ensures { (result ≡ 506) × (ThreeFormsOf506) }
    {
        2 * LOWEST_UCODE
    }
}
