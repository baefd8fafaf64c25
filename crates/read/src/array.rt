//! An array of fields, where it lies in the bytes.
ghost use Rattle.std.specs.Prelude.{◌≡◌, ◌+◌, ◌*◌, ◌/◌, ◌<◌, ◌≤◌, ℕ, List, [], ◌∷◌, length, Some, None, MatchOption};
ghost use Rattle.read.specs.Arrays.{fields};
ghost use Rattle.std.specs.List.{slice_get};
ghost use Rattle.std.specs.Iterator.{YieldsFirst, item_count};

use crate::ReadUnchecked;
use std::marker::{Model, PhantomData};

/// An array of fields, all of one kind: as many as its bytes hold.
#[derive(Drop)]
pub struct ReadArray<'a, T> {
    pub(crate) bytes: &'a [u8],
    pub(crate) kind: PhantomData<T>,
}

// A contract sees an array as its bytes, and says `fields` of them: an array can be named where nothing is known of `T`.
impl<'a, T> Model for ReadArray<'a, T> {
    ghost Value = { List ℕ };

    ghost view = { λ a. a.bytes.now };
}

/// A walk over an array: the fields that are still to come.
#[derive(Drop)]
pub struct ReadArrayIter<'a, T> {
    bytes: &'a [u8],
    kind: PhantomData<T>,
}

// A contract sees a walk as the bytes of what is still to come.
impl<'a, T> Model for ReadArrayIter<'a, T> {
    ghost Value = { List ℕ };

    ghost view = { λ a. a.bytes.now };
}

impl<'a, T: ReadUnchecked> ReadArray<'a, T> {
    /// How many fields there are.
    #[tactic(auto, using(crate::proofs::Arrays::fields_length))]
    pub fn len(&self) -> usize
        ensures { result ≡ length (fields T.SIZE T.decode self.now) }
    {
        self.bytes.len() / T::SIZE
    }

    /// The field at an index, where there is one.
    pub fn get_item(&self, index: usize) -> Option<T::HostType>
        ensures { result ≡ slice_get (fields T.SIZE T.decode self.now) index }
    {
        let item = field_bytes::<T>(self.bytes, index)?;
        Some(T::read_unchecked(item))
    }

    pub fn iter(&self) -> ReadArrayIter<'a, T>
        ensures { result ≡ self.now }
    {
        ReadArrayIter {
            bytes: self.bytes,
            kind: PhantomData,
        }
    }
}

impl<'a, T: ReadUnchecked> Iterator for ReadArrayIter<'a, T> {
    type Item = T::HostType;

    ghost next_gives = { YieldsFirst (fields T.SIZE T.decode) };

    ghost remaining = { item_count (fields T.SIZE T.decode) };

    fn next(&mut self) -> Option<T::HostType> {
        let (first, rest) = first_field::<T>(self.bytes)?;
        self.bytes = rest;
        Some(T::read_unchecked(first))
    }
}

// Where the field at an index begins in `len` bytes. All of it is there.
#[tactic(auto, using(crate::proofs::Arrays::ends_inside))]
fn place<T: ReadUnchecked>(len: usize, index: usize) -> Option<usize>
    ensures { MatchOption result (len / T.SIZE ≤ index) (λ at. (index < len / T.SIZE) × (at ≡ index * T.SIZE) × (at + T.SIZE ≤ len)) }
{
    let size = T::SIZE;
    if index < len / size {
        Some(index * size)
    } else {
        None
    }
}

// The bytes of the field at an index.
#[tactic(auto, using(crate::proofs::Arrays::field_at, crate::proofs::Arrays::field_past))]
fn field_bytes<'a, T: ReadUnchecked>(bytes: &'a [u8], index: usize) -> Option<&'a [u8]>
    ensures { MatchOption result (slice_get (fields T.SIZE T.decode bytes.now) index ≡ None) (λ item. (length item.now ≡ T.SIZE) × (slice_get (fields T.SIZE T.decode bytes.now) index ≡ Some (T.decode item.now))) }
{
    let at = place::<T>(bytes.len(), index)?;
    let end = at + T::SIZE;
    Some(&bytes[at..end])
}

// The bytes of the first field, and those behind it.
#[tactic(auto, using(crate::proofs::Arrays::fields_more, crate::proofs::Arrays::fields_none))]
fn first_field<'a, T: ReadUnchecked>(bytes: &'a [u8]) -> Option<(&'a [u8], &'a [u8])>
    ensures { MatchOption result (fields T.SIZE T.decode bytes.now ≡ []) (λ p. (length p.0.now ≡ T.SIZE) × (fields T.SIZE T.decode bytes.now ≡ T.decode p.0.now ∷ fields T.SIZE T.decode p.1.now) × (length p.1.now < length bytes.now)) }
{
    if bytes.len() < T::SIZE {
        return None;
    }
    Some(bytes.split_at(T::SIZE))
}
