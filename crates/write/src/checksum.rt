//! A sink that counts and adds up.
ghost use Rattle.std.specs.Prelude.{◌≡◌, ◌-◌, ◌%◌, ◌^◌, ◌<◌};

use crate::counter::WriteCounter;

pub mod sink;

/// A `WriteContext` implementation that keeps the checksum of the bytes written.
// Fewer than four bytes leave the lowest bytes of the sum zero.
#[derive(Drop)]
pub struct WriteChecksum {
    counter: WriteCounter,
    sum: u32,
    ghost small: { sum < 4294967296 },
    ghost filled: { sum % 256 ^ (4 - counter.count) ≡ 0 },
}
