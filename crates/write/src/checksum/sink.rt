//! The checksum as a sink.
ghost use Rattle.std.specs.Prelude.{◌≡◌, ℕ, ◌-◌, ◌*◌, ◌%◌, ◌^◌, List, ◌++◌, length};
ghost use Rattle.write.specs.Checksums.{checksum};
ghost use Rattle.write.specs.Meanings as means;
ghost use Rattle.write.specs.Sinks.{New};
ghost use Rattle.write.specs.Sums.{summed_by};
ghost use Rattle.std.proofs.Common.{rules, arith};

use crate::WriteContext;
use crate::checksum::WriteChecksum;
use crate::counter::WriteCounter;
use crate::error::WriteError;

impl WriteChecksum {
    /// The checksum of no bytes.
    #[tactic(auto, unfolding(crate::specs::Checksums::checksum))]
    pub fn new() -> WriteChecksum
        ensures { New means.summed 4294967295 result }
    {
        WriteChecksum {
            counter: WriteCounter::new(),
            sum: 0,
        }
    }

    /// The sum of what was written, as big-endian words of 32 bits with zeros behind the last.
    pub fn sum(&self) -> u32
        ensures value { result ≡ self.now.sum }
        ensures sums { (xs : List ℕ) → (means.summed).stands self.now xs → checksum xs ≡ result }
    {
        let WriteChecksum { sum, .. } = self;
        *sum
    }
}

// What a byte adds to the sum, by its place in its word.
fn placed(byte: u8, at: usize) -> u32
    ensures { result ≡ byte * 256 ^ (3 - at % 4) }
{
    u32::from(byte) << (24 - 8 * (at % 4))
}

// The sum of some bytes that begin at `at`, added to the sum of those before. A place counts modulo 4, so it may wrap.
fn added(sum: u32, at: usize, bytes: &[u8]) -> u32
    ensures { (xs : List ℕ) → length xs ≡ at → checksum xs ≡ sum → checksum (xs ++ bytes.now) ≡ result }
{
    let mut total = sum;
    for (i, byte) in bytes.iter().enumerate() {
        total = total.wrapping_add(placed(*byte, at.wrapping_add(i)));
    }
    total
}

impl WriteContext for WriteChecksum {
    ghost meaning = { means.summed };

    ghost some = { λ s. summed_by s.counter.count s.sum s.small s.filled };

    ghost exact = { first_of (Prim.search rules, Prim.grind (arith, Self.row.coded.inj)) };

    #[tactic(auto, using(crate::proofs::Checksums::filled_by))]
    fn write_bytes(&mut self, bytes: &[u8]) -> Result<(), WriteError> {
        let at = self.bytes_written();
        self.counter.write_bytes(bytes)?;
        self.sum = added(self.sum, at, bytes);
        Ok(())
    }

    #[tactic(auto, using(crate::specs::Sums::adds_zeros, crate::proofs::Checksums::filled_by, crate::proofs::Checksums::zeros_put))]
    fn write_zeros(&mut self, n: usize) -> Result<(), WriteError> {
        self.counter.write_zeros(n)
    }

    fn bytes_written(&self) -> usize {
        self.counter.bytes_written()
    }

    fn space(&self) -> usize {
        self.counter.space()
    }
}
