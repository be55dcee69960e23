//! Values that name blocks, tables and sets of I/O pages of a host.

ghost use Rattle.std.specs.Prelude.{IsTrue, ◌↔◌};
ghost use Rattle.vm_memory_core.specs.Host.{Host};

use crate::host::HostMemory;
use crate::host_blocks::HostBlocks;
use vm_bitmaps::NewBitmap;

/// A value that names parts of a host: blocks with their lengths, as a layout does, a table and a set of I/O
/// pages.
pub trait HeldIn {
    // a host has all parts that the value names
    ghost IsHeld: { Self → Host → Type 0 };

    // a property of each value of the type, with any host
    ghost IsSound: { Self → Type 0 };

    /// Whether a host of any kind has all parts that the value names. `HostMemory::holds` calls it.
    fn is_held<H: HostBlocks>(&self, h: &H) -> bool
        ensures held { IsTrue result ↔ IsHeld self.now (H.host h.now) }
        ensures sound { IsSound self.now };
}

impl<B: NewBitmap> HostMemory<B> {
    /// Whether this memory has all parts that a value names: blocks with their lengths, tables and sets of
    /// I/O pages.
    pub fn holds<M: HeldIn>(&self, m: &M) -> bool
        ensures held { IsTrue result ↔ M.IsHeld m.now self.now }
        ensures sound { M.IsSound m.now }
    {
        m.is_held(self)
    }
}
