//! Bytes in hexadecimal.
ghost use Rattle.std.specs.Prelude.{◌≡◌, ◌<◌, IfSome};
ghost use Rattle.glyph_text.specs.declared.hex.HexError.TheVariants.{NoMemory};
ghost use Rattle.glyph_text.specs.Hex.{digit_said, hex_said, pair_said, pairs, Read};

use std::alloc::{AllocFailed, Global};
use std::fmt;

/// Why a text was not taken for bytes.
#[derive(Clone, Copy, Debug, PartialEq, Eq)]
pub enum HexError {
    /// It is neither `-` nor pairs of lower-case digits.
    NotHex,
    /// There is no memory for the bytes.
    NoMemory,
}

impl<T: Drop> From<AllocFailed<T>> for HexError {
    ghost from_gives = { λ _ e. e ≡ NoMemory };

    fn from(_e: AllocFailed<T>) -> HexError {
        HexError::NoMemory
    }
}

/// The bytes that a text spells: two lower-case digits to a byte, `-` for none.
// The kit's crate `hex` takes upper-case digits too, and no `-`.
pub fn read_hex(heap: Global, text: &[u8]) -> Result<Vec<u8>, HexError>
    ensures { Read (hex_said text.now) result }
{
    match text {
        b"-" => Ok(Vec::new(heap)),
        [] => Err(HexError::NotHex),
        _ => read_pairs(heap, text),
    }
}

#[tactic(auto, using(crate::proofs::Pairs::chunk_more))]
fn read_pairs(heap: Global, text: &[u8]) -> Result<Vec<u8>, HexError>
    ensures { Read (pairs text.now) result }
{
    let mut bytes = Vec::new(heap);
    for digits in text.chunks(2) {
        bytes.push(byte(digits).ok_or(HexError::NotHex)?)?;
    }
    Ok(bytes)
}

fn byte(digits: &[u8]) -> Option<u8>
    ensures { result ≡ pair_said digits.now }
{
    let [high, low, ..] = digits else {
        return None;
    };
    let high = digit(*high)?;
    let low = digit(*low)?;
    Some(16 * high + low)
}

fn digit(byte: u8) -> Option<u8>
    ensures value { result ≡ digit_said byte }
    ensures bound { IfSome result (λ d. d < 16) }
{
    match byte {
        b'0'..=b'9' => Some(byte - b'0'),
        b'a'..=b'f' => Some(byte - b'a' + 10),
        _ => None,
    }
}

/// Bytes, shown as `read_hex` reads them.
#[derive(Drop)]
pub struct Hex<'a>(pub &'a [u8]);

impl fmt::Display for Hex<'_> {
    fn fmt<W: fmt::Write>(&self, f: &mut fmt::Formatter<W>) -> fmt::Result {
        if self.0.is_empty() {
            return f.write_str("-");
        }
        for byte in self.0 {
            write!(f, "{byte:02x}")?;
        }
        Ok(())
    }
}
