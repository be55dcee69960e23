//! Bytes of guest memory by address, and of regions by offset (vm-memory's `Bytes` and
//! `GuestMemoryRegionBytes`).

ghost use Rattle.std.specs.Prelude.{◌≡◌, ◌==◌, if◌then◌else◌, Result, Ok, Err};
ghost use Rattle.vm_memory_core.specs.Host.{lengths};
ghost use Rattle.vm_memory.specs.Layout.{AreHeld};
ghost use Rattle.vm_memory_core.specs.Window.{LiesIn};
ghost use Rattle.vm_memory.specs.Bytes.{reached_by, reached_in};
ghost use Rattle.vm_memory.specs.ReachedBytesProof.{length-reached_by, length-reached_in};
ghost use Rattle.vm_memory.specs.Regions.{whole_of};
ghost use Rattle.vm_memory.specs.declared.error.GuestMemoryError.TheVariants.{InvalidGuestAddress};
ghost use Rattle.vm_memory.specs.declared.error.GuestMemoryError.TheVariants.{PartialBuffer};

use crate::collection::GuestRegionCollection;
use crate::error::GuestMemoryError;
use crate::region::{GuestMemoryRegion, GuestRegionMmap};
use vm_memory_core::{Bytes, GuestAddress, HostMemory, MemoryRegionAddress, NewBitmap};

/// A guest's bytes by physical address; 0 follows the greatest address. InvalidGuestAddress if the first
/// address has no place. `read_slice` and `write_slice`: PartialBuffer if a later one has none.
impl<R: GuestMemoryRegion> Bytes<GuestAddress> for GuestRegionCollection<R> {
    type E = GuestMemoryError;

    ghost IsHeld = { λ m h. AreHeld (lengths h) m };

    ghost Reaches = { λ m h a n p places. places ≡ reached_by m a n };

    ghost partial = { λ n k. PartialBuffer n k };

    ghost at_most = { λ m h a n p places e. length-reached_by m a n places e };

    fn read<B: NewBitmap>(
        &self,
        h: &HostMemory<B>,
        buf: &mut [u8],
        addr: GuestAddress,
    ) -> Result<usize, GuestMemoryError> {
        let asked = buf.len();
        let completed = self.read_some(h, buf, addr.0);
        some_of(addr, asked, completed)
    }

    fn write<B: NewBitmap>(
        &self,
        h: &mut HostMemory<B>,
        buf: &[u8],
        addr: GuestAddress,
    ) -> Result<usize, GuestMemoryError> {
        let completed = self.write_some(h, buf, addr.0);
        some_of(addr, buf.len(), completed)
    }

    fn read_slice<B: NewBitmap>(
        &self,
        h: &HostMemory<B>,
        buf: &mut [u8],
        addr: GuestAddress,
    ) -> Result<(), GuestMemoryError> {
        GuestRegionCollection::read_slice(self, h, buf, addr)
    }

    fn write_slice<B: NewBitmap>(
        &self,
        h: &mut HostMemory<B>,
        buf: &[u8],
        addr: GuestAddress,
    ) -> Result<(), GuestMemoryError> {
        GuestRegionCollection::write_slice(self, h, buf, addr)
    }
}

// The result of a transfer of at most `asked` bytes at an address, of which `completed` were
// transferred.
pub(crate) fn some_of(
    addr: GuestAddress,
    asked: usize,
    completed: usize,
) -> Result<usize, GuestMemoryError>
    ensures { result ≡ (if asked == 0 then Ok 0
        else if completed == 0 then Err (InvalidGuestAddress addr)
        else Ok completed) }
{
    if asked == 0 {
        Ok(0)
    } else if completed == 0 {
        Err(GuestMemoryError::InvalidGuestAddress(addr))
    } else {
        Ok(completed)
    }
}

/// A region whose bytes are read and written by offset (vm-memory's `GuestMemoryRegionBytes`).
pub trait GuestMemoryRegionBytes: GuestMemoryRegion + Bytes<MemoryRegionAddress> {}

impl GuestMemoryRegionBytes for GuestRegionMmap {}

/// A region's bytes by their offset from its first address. InvalidBackendAddress if the region doesn't
/// have the first byte. `read_slice` and `write_slice`: PartialBuffer if it doesn't have them all.
impl Bytes<MemoryRegionAddress> for GuestRegionMmap {
    type E = GuestMemoryError;

    ghost IsHeld = { λ r h. LiesIn (lengths h) (whole_of r) };

    ghost Reaches = { λ r h a n p places. places ≡ reached_in r a n };

    ghost partial = { λ n k. PartialBuffer n k };

    ghost at_most = { λ r h a n p places e. length-reached_in r a n places e };

    fn read<B: NewBitmap>(
        &self,
        h: &HostMemory<B>,
        buf: &mut [u8],
        addr: MemoryRegionAddress,
    ) -> Result<usize, GuestMemoryError> {
        match self.whole().read(h, buf, addr.0 as usize) {
            Ok(completed) => Ok(completed),
            Err(_) => Err(GuestMemoryError::InvalidBackendAddress),
        }
    }

    fn write<B: NewBitmap>(
        &self,
        h: &mut HostMemory<B>,
        buf: &[u8],
        addr: MemoryRegionAddress,
    ) -> Result<usize, GuestMemoryError> {
        match self.whole().write(h, buf, addr.0 as usize) {
            Ok(completed) => Ok(completed),
            Err(_) => Err(GuestMemoryError::InvalidBackendAddress),
        }
    }

    fn read_slice<B: NewBitmap>(
        &self,
        h: &HostMemory<B>,
        buf: &mut [u8],
        addr: MemoryRegionAddress,
    ) -> Result<(), GuestMemoryError> {
        let asked = buf.len();
        match self.read(h, buf, addr) {
            Ok(completed) => in_full(asked, completed),
            Err(error) => Err(error),
        }
    }

    fn write_slice<B: NewBitmap>(
        &self,
        h: &mut HostMemory<B>,
        buf: &[u8],
        addr: MemoryRegionAddress,
    ) -> Result<(), GuestMemoryError> {
        match self.write(h, buf, addr) {
            Ok(completed) => in_full(buf.len(), completed),
            Err(error) => Err(error),
        }
    }
}

// The result of a transfer of `expected` bytes: PartialBuffer if it had fewer.
fn in_full(expected: usize, completed: usize) -> Result<(), GuestMemoryError>
    ensures { result ≡ (if completed == expected then Ok tt else Err (PartialBuffer expected completed)) }
{
    if completed == expected {
        Ok(())
    } else {
        Err(GuestMemoryError::PartialBuffer {
            expected,
            completed,
        })
    }
}
