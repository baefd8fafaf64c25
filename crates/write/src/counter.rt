//! A sink that only counts.
ghost use Rattle.std.specs.Prelude.{replicate};
ghost use Rattle.write.specs.Meanings as means;
ghost use Rattle.write.specs.Sinks.{New};
ghost use Rattle.std.proofs.lemmas.List.{length-replicate};
ghost use Rattle.std.proofs.Common.{rules};

use crate::WriteContext;
use crate::error::WriteError;

/// A `WriteContext` implementation that just counts the bytes written.
#[derive(Clone, Copy)]
pub struct WriteCounter {
    count: u32,
}

impl WriteCounter {
    /// A counter at 0.
    pub fn new() -> WriteCounter
        ensures { New means.counter 4294967295 result }
    {
        WriteCounter { count: 0 }
    }
}

impl WriteContext for WriteCounter {
    ghost meaning = { means.counter };

    ghost some = { λ s. (replicate s.count 0, length-replicate s.count 0) };

    ghost exact = { Prim.search rules };

    #[tactic(auto, using(crate::proofs::Counts::any_bytes))]
    fn write_bytes(&mut self, bytes: &[u8]) -> Result<(), WriteError> {
        // A counter does not look at the bytes.
        self.write_zeros(bytes.len())
    }

    #[tactic(auto, using(crate::proofs::Counts::counted))]
    fn write_zeros(&mut self, n: usize) -> Result<(), WriteError> {
        let count = u32::try_from(n)
            .ok()
            .and_then(|n| self.count.checked_add(n));
        self.count = count.ok_or(WriteError::NoSpace)?;
        Ok(())
    }

    fn bytes_written(&self) -> usize {
        self.count as usize
    }

    fn space(&self) -> usize {
        (u32::MAX - self.count) as usize
    }
}
