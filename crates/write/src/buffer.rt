//! A sink that keeps the bytes.
ghost use Rattle.std.specs.Prelude.{◌≤◌, vec_len};

pub mod sink;

/// An in-memory buffer that implements `WriteContext`, over memory that it is given.
// It never grows, which would allocate. A slice lent to it would ask the caller to keep that memory.
#[derive(Drop)]
pub struct WriteBuffer {
    bytes: Vec<u8>,
    written: usize,
    ghost inside: { written ≤ vec_len bytes },
}
