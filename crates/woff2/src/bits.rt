//! A bitmap.
ghost use Rattle.std.specs.List.{slice_get};
ghost use Rattle.woff2.specs.Bits.{bits, bits_of};
ghost use Rattle.std.specs.Prelude.{◌≡◌, ◌<◌, Some};

/// Bits, the highest of each byte first.
// A contract names the field: a type with a lifetime that is `Copy` can have no model.
#[derive(Clone, Copy)]
pub struct BitSlice<'a> {
    bytes: &'a [u8],
}

impl<'a> BitSlice<'a> {
    pub fn new(data: &'a [u8]) -> BitSlice<'a>
        ensures { result.bytes.now ≡ «data».now }
    {
        BitSlice { bytes: data }
    }

    /// The bit at an index, or `None` past the end.
    pub fn get(&self, index: usize) -> Option<bool>
        ensures { result ≡ slice_get (bits self.now.bytes.now) index }
    {
        bit_at(self.bytes, index)
    }
}

// Apart from `get`, since its proof needs answers: an edit of that one is then refused at its own place.
fn bit_at(bytes: &[u8], index: usize) -> Option<bool>
    ensures { result ≡ slice_get (bits bytes.now) index }
{
    let byte = bytes.get(index / 8)?;
    Some(bit(*byte, index % 8))
}

// The bit of a byte, counted from the highest.
#[tactic(auto, using(crate::proofs::Bitmaps::masked))]
fn bit(byte: u8, place: usize) -> bool
    requires { place < 8 }
    ensures { Some result ≡ slice_get (bits_of byte) place }
{
    (byte >> (7 - place)) & 1 == 1
}
