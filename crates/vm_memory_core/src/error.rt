//! The errors of calls on a window.

ghost use Rattle.std.specs.Prelude.{◌≡◌};
ghost use Rattle.vm_memory_core.specs.Parts.{end_of};

use thiserror::Error;

/// An error of a part of a window, or of an access to one (vm-memory's `VolatileMemoryError`). Addresses
/// count bytes from the window's start.
#[derive(Clone, Copy, Debug, PartialEq, Eq, Error)]
pub enum VolatileMemoryError {
    /// The end of a part is past the window, or the window has no byte at the start of an access.
    #[error("address {addr:#x} is out of bounds")]
    OutOfBounds { addr: usize },
    /// The end doesn't fit 64 bits.
    #[error("{base:#x} plus {offset:#x} does not fit 64 bits")]
    Overflow { base: usize, offset: usize },
    /// The number of elements, or of their bytes, is 2^63 or more.
    #[error("{nelements} elements of {size} bytes are too many")]
    TooBig { nelements: usize, size: usize },
    /// Kept for vm-memory's name, but never returned: nothing has to be aligned.
    #[error("misaligned")]
    Misaligned,
    /// Only `completed` of the buffer's `expected` bytes could be read or written.
    #[error("only {completed} of {expected} bytes could be accessed")]
    PartialBuffer { expected: usize, completed: usize },
}

impl VolatileMemoryError {
    ghost use Rattle.vm_memory_core.specs.Numbers.{volatile_memory_number};

    /// The error's number: 1 to 5, in the order above.
    pub fn number(&self) -> u8
        ensures { result ≡ volatile_memory_number self.now }
    {
        match self {
            VolatileMemoryError::OutOfBounds { .. } => 1,
            VolatileMemoryError::Overflow { .. } => 2,
            VolatileMemoryError::TooBig { .. } => 3,
            VolatileMemoryError::Misaligned => 4,
            VolatileMemoryError::PartialBuffer { .. } => 5,
        }
    }
}

/// `base` plus `offset`, in bytes (vm-memory's `compute_offset`). Overflow if it doesn't fit 64 bits.
pub fn compute_offset(base: usize, offset: usize) -> Result<usize, VolatileMemoryError>
    ensures { result ≡ end_of base offset }
{
    match base.checked_add(offset) {
        Some(end) => Ok(end),
        None => Err(VolatileMemoryError::Overflow { base, offset }),
    }
}
