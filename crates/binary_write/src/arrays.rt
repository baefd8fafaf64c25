//! Arrays and slices of fields written to any sink.
ghost use Rattle.read.specs.Arrays.{fields};
ghost use Rattle.write.specs.Sinks.{Puts};
ghost use Rattle.std.specs.Iterator.{AlwaysYields, IsFinite};
ghost use Rattle.std.specs.List.{flat_map};
ghost use Rattle.std.specs.Prelude.{◌≡◌, List, length, nat_le};

use crate::fields::WriteBinary;
use read::ReadArray;
use write::WriteContext;
use write::error::WriteError;

/// Writes the fields of an array, all of them or none.
#[tactic(auto, using(crate::proofs::Walks::array_gives))]
pub fn write_array<T: WriteBinary, C: WriteContext>(
    ctxt: &mut C,
    array: &ReadArray<'_, T>,
) -> Result<(), WriteError>
    ensures { Puts C.meaning (flat_map T.encode (fields T.SIZE T.decode array.now)) ctxt.old result ctxt.new }
{
    write_all::<T, C, _>(ctxt, array.len(), array.iter())
}

/// Writes values as fields of one kind, all of them or none.
#[tactic(auto, using(crate::proofs::Walks::slice_gives))]
pub fn write_vec<T: WriteBinary, C: WriteContext>(
    ctxt: &mut C,
    values: &[T::HostType],
) -> Result<(), WriteError>
where
    T::HostType: Copy,
    ensures { Puts C.meaning (flat_map T.encode values.now) ctxt.old result ctxt.new }
{
    write_all::<T, C, _>(ctxt, values.len(), values.iter().copied())
}

// Writes the `n` values that an iterator gives.
fn write_all<T: WriteBinary, C: WriteContext, I: Iterator<Item = T::HostType> + Drop>(
    ctxt: &mut C,
    n: usize,
    values: I,
) -> Result<(), WriteError>
    requires can { I.can_next values }
    requires ends { IsFinite (I.remaining values) }
    ensures { (all : List T.HostType) → length all ≡ n → AlwaysYields I.next_gives (λ x. x) values all → Puts C.meaning (flat_map T.encode all) ctxt.old result ctxt.new }
{
    if !has_space::<T, C>(ctxt, n) {
        return Err(WriteError::NoSpace);
    }
    for value in values {
        T::write(ctxt, value)?;
    }
    Ok(())
}

// Whether there is space for `n` fields.
#[tactic(auto, using(crate::proofs::Walks::room_for))]
fn has_space<T: WriteBinary, C: WriteContext>(ctxt: &C, n: usize) -> bool
    ensures { (vs : List T.HostType) → length vs ≡ n → result ≡ nat_le (length (flat_map T.encode vs)) (C.meaning.space ctxt.now) }
{
    n <= ctxt.space() / T::SIZE
}
