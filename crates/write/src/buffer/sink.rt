//! The buffer as a sink.
ghost use Rattle.std.specs.Prelude.{◌-◌, ◌≤◌, min, length, replicate, vec_len};
ghost use Rattle.write.specs.Meanings as means;
ghost use Rattle.write.specs.Sinks.{New, Put};
ghost use Rattle.std.proofs.Common.{rules, arith};

use crate::WriteContext;
use crate::buffer::WriteBuffer;
use crate::error::WriteError;

impl WriteBuffer {
    /// An empty buffer, with as much space as `bytes` is long, and at most 4294967295 bytes.
    pub fn new(mut bytes: Vec<u8>) -> WriteBuffer
        ensures { New means.buffer (min (vec_len bytes) 4294967295) result }
    {
        bytes.truncate(4294967295);
        WriteBuffer { bytes, written: 0 }
    }

    /// The bytes that were written.
    pub fn bytes(&self) -> &[u8]
        ensures { (means.buffer).stands self.now result.now }
    {
        &self.bytes[..self.written]
    }

    fn store(&mut self, bytes: &[u8])
        requires { length bytes.now ≤ vec_len self.old.bytes - self.old.written }
        ensures { Put means.buffer bytes.now self.old self.new }
    {
        let end = self.written + bytes.len();
        self.bytes[self.written..end].copy_from_slice(bytes);
        self.written = end;
    }

    fn store_zeros(&mut self, n: usize)
        requires { n ≤ vec_len self.old.bytes - self.old.written }
        ensures { Put means.buffer (replicate n 0) self.old self.new }
    {
        let end = self.written + n;
        self.bytes[self.written..end].fill(0);
        self.written = end;
    }
}

// The two puts differ in what they store. A function for their test would be no shorter than the test.
impl WriteContext for WriteBuffer {
    ghost meaning = { means.buffer };

    ghost some = { first_of (Prim.search rules, Prim.grind (arith, Self.row.coded.inj)) };

    ghost exact = { first_of (Prim.search rules, Prim.grind (arith, Self.row.coded.inj)) };

    fn write_bytes(&mut self, bytes: &[u8]) -> Result<(), WriteError> {
        if bytes.len() > self.space() {
            return Err(WriteError::NoSpace);
        }
        self.store(bytes);
        Ok(())
    }

    fn write_zeros(&mut self, n: usize) -> Result<(), WriteError> {
        if n > self.space() {
            return Err(WriteError::NoSpace);
        }
        self.store_zeros(n);
        Ok(())
    }

    fn bytes_written(&self) -> usize {
        let WriteBuffer { written, .. } = self;
        *written
    }

    fn space(&self) -> usize {
        self.bytes.len() - self.written
    }
}
