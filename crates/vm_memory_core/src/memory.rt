//! Memory whose parts are windows (vm-memory's `VolatileMemory`).

ghost use Rattle.std.specs.Prelude.{◌≡◌, ◌==◌};
ghost use Rattle.vm_memory_core.specs.Window.{Window};
ghost use Rattle.vm_memory_core.specs.Parts.{end_within, sub_elements, sub_window};

use crate::element::{VolatileArrayRef, VolatileRef};
use crate::error::{VolatileMemoryError, compute_offset};
use crate::window::VolatileSlice;
use vm_values::ByteValued;

/// Memory that is a window, and returns its parts (vm-memory's `VolatileMemory`).
pub trait VolatileMemory {
    // the window of the whole memory
    ghost window: { Self → Window };

    /// Its number of bytes.
    fn len(&self) -> usize
        ensures { result ≡ (window self.now).len };

    /// Its `count` bytes from `offset` on (vm-memory's `VolatileMemory::get_slice`). Overflow if their end
    /// doesn't fit 64 bits. OutOfBounds if the memory doesn't have them.
    fn get_slice(&self, offset: usize, count: usize) -> Result<VolatileSlice, VolatileMemoryError>
        ensures { result ≡ sub_window (window self.now) offset count };

    /// The window of the whole memory.
    fn as_volatile_slice(&self) -> VolatileSlice
        ensures { result ≡ window self.now };

    /// Whether it has no bytes.
    final fn is_empty(&self) -> bool
        ensures { result ≡ ((window self.now).len == 0) }
    {
        self.len() == 0
    }

    /// The place of a value at `offset` (vm-memory's `VolatileMemory::get_ref`). The errors are those of
    /// `VolatileSlice::get_ref`: Overflow, OutOfBounds.
    final fn get_ref<T: ByteValued>(
        &self,
        offset: usize,
    ) -> Result<VolatileRef<T>, VolatileMemoryError>
        ensures { result ≡ sub_window (window self.now) offset T.SIZE }
    {
        self.as_volatile_slice().get_ref(offset)
    }

    /// The places of `n` values from `offset` on (vm-memory's `VolatileMemory::get_array_ref`). The errors
    /// are those of `VolatileSlice::get_array_ref`: TooBig, Overflow, OutOfBounds.
    final fn get_array_ref<T: ByteValued>(
        &self,
        offset: usize,
        n: usize,
    ) -> Result<VolatileArrayRef<T>, VolatileMemoryError>
        ensures { result ≡ sub_elements (window self.now) offset n T.SIZE }
    {
        self.as_volatile_slice().get_array_ref(offset, n)
    }

    /// `base` plus `offset`, in bytes (vm-memory's `VolatileMemory::compute_end_offset`). Overflow if it
    /// doesn't fit 64 bits. OutOfBounds if it is past the memory's end.
    final fn compute_end_offset(
        &self,
        base: usize,
        offset: usize,
    ) -> Result<usize, VolatileMemoryError>
        ensures { result ≡ end_within (window self.now).len base offset }
    {
        match compute_offset(base, offset) {
            Ok(end) if end <= self.len() => Ok(end),
            Ok(addr) => Err(VolatileMemoryError::OutOfBounds { addr }),
            Err(error) => Err(error),
        }
    }
}

impl VolatileMemory for VolatileSlice {
    ghost window = { λ w. w };

    fn len(&self) -> usize {
        VolatileSlice::len(self)
    }

    fn get_slice(&self, offset: usize, count: usize) -> Result<VolatileSlice, VolatileMemoryError> {
        self.subslice(offset, count)
    }

    fn as_volatile_slice(&self) -> VolatileSlice {
        *self
    }
}
