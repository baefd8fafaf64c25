//! Reading of binary data: a borrowed cursor over bytes, fields of a fixed size, and arrays of them.
#![tactic(auto)]

ghost use Rattle.std.specs.Prelude.{◌≡◌, ℕ, ◌*◌, ◌≤◌, List, length, Ok, Err, MatchBool, nat_le};
ghost use Rattle.read.specs.Bytes.{AllBytes};
ghost use Rattle.read.specs.Reading.{Takes};
ghost use Rattle.read.specs.declared.error.ParseError.TheVariants.{BadEof};

use crate::error::{ParseError, ReadEof};
use std::marker::PhantomData;

mod array;
pub mod error;

pub use array::{ReadArray, ReadArrayIter};

/// Bytes to read.
// A contract names the field, here and in `ReadCtxt`: a type with a lifetime that is `Copy` can have no model.
#[derive(Clone, Copy)]
pub struct ReadScope<'a> {
    bytes: &'a [u8],
}

/// A cursor: the bytes that are left to read.
#[derive(Clone, Copy)]
pub struct ReadCtxt<'a> {
    rest: &'a [u8],
}

/// A kind of field with a fixed size. Read will always succeed if sufficient bytes are available.
pub trait ReadUnchecked {
    type HostType;

    /// How many bytes a field has.
    const SIZE: usize;

    ghost SIZE: { ℕ };

    // The values that a field can hold.
    ghost good: { Self.HostType → Type 0 };

    // The bytes that spell a value.
    ghost encode: { Self.HostType → List ℕ };

    // What bytes say.
    ghost decode: { List ℕ → Self.HostType };

    /// What the bytes of one field say.
    fn read_unchecked(bytes: &[u8]) -> Self::HostType
        requires { length bytes.now ≡ SIZE }
        ensures { result ≡ decode bytes.now };

    // Reading what was written returns the value, from just those bytes.
    ghost read_back: { (v : Self.HostType) → good v → decode (encode v) ≡ v };

    ghost exact: { (v : Self.HostType) → length (encode v) ≡ SIZE };

    // Writing what was read returns those bytes.
    ghost write_back: { (bs : List ℕ) → length bs ≡ SIZE → AllBytes bs → encode (decode bs) ≡ bs };

    ghost some: { 1 ≤ SIZE };
}

impl<'a> ReadScope<'a> {
    pub fn new(data: &'a [u8]) -> ReadScope<'a>
        ensures { result.bytes.now ≡ «data».now }
    {
        ReadScope { bytes: data }
    }

    pub fn data(&self) -> &'a [u8]
        ensures { result.now ≡ self.now.bytes.now }
    {
        self.bytes
    }

    pub fn ctxt(&self) -> ReadCtxt<'a>
        ensures { result.rest.now ≡ self.now.bytes.now }
    {
        ReadCtxt { rest: self.data() }
    }
}

impl<'a> ReadCtxt<'a> {
    /// What is left to read.
    pub fn scope(&self) -> ReadScope<'a>
        ensures { result.bytes.now ≡ self.now.rest.now }
    {
        ReadScope { bytes: self.rest }
    }

    pub fn read<T: ReadUnchecked>(&mut self) -> Result<T::HostType, ParseError>
        ensures { Takes T.SIZE (λ v bs. v ≡ T.decode bs) BadEof self.old.rest.now result self.new.rest.now }
    {
        let bytes = self.read_slice(T::SIZE)?;
        Ok(T::read_unchecked(bytes))
    }

    fn check_avail(&self, n: usize) -> Result<(), ReadEof>
        ensures { MatchBool (nat_le n (length self.now.rest.now)) (result ≡ Ok tt) (result ≡ Err (record {})) }
    {
        if n <= self.rest.len() {
            Ok(())
        } else {
            Err(ReadEof {})
        }
    }

    pub fn read_slice(&mut self, n: usize) -> Result<&'a [u8], ReadEof>
        ensures { Takes n (λ s bs. s.now ≡ bs) (record {}) self.old.rest.now result self.new.rest.now }
    {
        self.check_avail(n)?;
        let (slice, rest) = self.rest.split_at(n);
        self.rest = rest;
        Ok(slice)
    }

    pub fn read_scope(&mut self, n: usize) -> Result<ReadScope<'a>, ReadEof>
        ensures { Takes n (λ s bs. s.bytes.now ≡ bs) (record {}) self.old.rest.now result self.new.rest.now }
    {
        Ok(ReadScope {
            bytes: self.read_slice(n)?,
        })
    }

    pub fn read_array<T: ReadUnchecked>(&mut self, n: usize) -> Result<ReadArray<'a, T>, ParseError>
        ensures { Takes (n * T.SIZE) (λ a bs. a ≡ bs) BadEof self.old.rest.now result self.new.rest.now }
    {
        let scope = self.read_scope(n.saturating_mul(T::SIZE))?;
        Ok(ReadArray {
            bytes: scope.bytes,
            kind: PhantomData,
        })
    }
}
