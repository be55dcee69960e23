//! Sources of bytes that are read straight into host memory (vm-memory's `ReadVolatile`).

ghost use Rattle.std.specs.Prelude.{◌≡◌, ℕ, ◌+◌, ◌≤◌, List, ◌++◌, length, take, drop, Result};
ghost use Rattle.vm_memory_core.specs.Volatile.{bytes_answer, moved, read_answer};

/// A source of bytes (vm-memory's `ReadVolatile`).
pub trait ReadVolatile {
    /// The source's own error: nothing was read.
    type Error;

    // The relation of one read: the source before it, the bytes of its buffer, the result, and the source
    // after it. The source sees no other memory.
    ghost gives: { Self → List ℕ → Result (List ℕ) Self.Error → Self → Type 0 };

    /// Reads bytes to the front of a buffer, and returns their number. The rest of the buffer must stay
    /// unchanged, and all of it with an error. The buffer may hold bytes of a guest, which aren't an input
    /// of the source.
    fn read_volatile(&mut self, buf: &mut [u8]) -> Result<usize, Self::Error>
        ensures within { moved result ≤ length buf.old }
        ensures rest { buf.new ≡ take (moved result) buf.new ++ drop (moved result) buf.old }
        ensures gives { gives self.old buf.old (bytes_answer result buf.new) self.new };
}

// The number of bytes that a read moved; 0 with an error.
pub(crate) fn moved<E>(answer: &Result<usize, E>) -> usize
    ensures { result ≡ moved answer.now }
{
    match answer {
        Ok(n) => *n,
        Err(_) => 0,
    }
}

// Reads from `source` to the `len` bytes of a block from `offset` on.
pub(crate) fn read_to<S: ReadVolatile>(
    block: &mut [u8],
    offset: usize,
    len: usize,
    source: &mut S,
) -> Result<usize, S::Error>
    requires { offset + len ≤ length block.old }
    ensures reads { (part : List ℕ)
        × (block.new ≡ take offset block.old ++ part ++ drop (offset + length part) block.old)
        × (length part ≡ moved result)
        × (length part ≤ len)
        × S.gives source.old (take len (drop offset block.old)) (read_answer result part) source.new }
    ensures len { length block.new ≡ length block.old }
    ensures within { offset + moved result ≤ length block.old }
{
    source.read_volatile(&mut block[offset..offset + len])
}
