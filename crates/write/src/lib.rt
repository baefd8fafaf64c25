//! Writing of binary data to sinks.
#![tactic(auto)]

ghost use Rattle.std.specs.Prelude.{◌≡◌, ℕ, List, length};
ghost use Rattle.write.specs.Sinks.{Meaning, Puts, Zeros};

use crate::error::WriteError;

mod buffer;
mod checksum;
mod counter;
pub mod error;

pub use buffer::WriteBuffer;
pub use checksum::WriteChecksum;
pub use counter::WriteCounter;

/// A sink: somewhere to write bytes to. It says how many bytes it took and how many it still takes.
pub trait WriteContext {
    ghost meaning: { Meaning Self };

    /// Writes bytes, all of them or none.
    fn write_bytes(&mut self, bytes: &[u8]) -> Result<(), WriteError>
        ensures { Puts meaning bytes.now self.old result self.new };

    /// Writes `n` zero bytes, all of them or none.
    fn write_zeros(&mut self, n: usize) -> Result<(), WriteError>
        ensures { Zeros meaning n self.old result self.new };

    /// How many bytes were written so far.
    fn bytes_written(&self) -> usize
        ensures { result ≡ meaning.count self.now };

    /// How many bytes can still be written.
    fn space(&self) -> usize
        ensures { result ≡ meaning.space self.now };

    // A sink always stands for some list of bytes, and for none but of its count.
    ghost some: { (s : Self) → (xs : List ℕ) × meaning.stands s xs };

    ghost exact: { (s : Self) (xs : List ℕ) → meaning.stands s xs → length xs ≡ meaning.count s };
}
