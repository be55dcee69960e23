//! A region of guest addresses over a block of host memory (vm-memory's `GuestMemoryRegion` and
//! `GuestRegionMmap`).

ghost use Rattle.std.specs.Prelude.{◌≡◌, ◌+◌, ◌-◌, ◌<◌, nat_lt, IfOk};
ghost use Rattle.std.specs.Arc.{arc_value};
ghost use Rattle.vm_memory_core.specs.Host.{lengths};
ghost use Rattle.vm_memory_core.specs.Window.{LiesIn};
ghost use Rattle.vm_memory.specs.Layout.{IsLawful, Region, last_address};
ghost use Rattle.vm_memory.specs.Making.{IsRegionMade, region_over};
ghost use Rattle.vm_memory.specs.Regions.{checked_in, host_address_in, offset_in, whole_of, window_in};

use crate::error::{FromRangesError, GuestMemoryError, MmapRegionError};
use crate::mmap::MmapRegion;
use std::alloc::Global;
use std::marker::Model;
use std::sync::Arc;
use vm_memory_core::{
    GuestAddress, GuestUsize, HostMemory, MemoryRegionAddress, NewBitmap, VolatileSlice,
};

/// The block and the offset of a byte in the host, in place of vm-memory's host pointer.
#[derive(Clone, Copy, Debug, PartialEq, Eq)]
pub struct HostAddress {
    /// The number of its block.
    pub block: usize,
    /// The byte's offset in the block.
    pub offset: usize,
}

/// Consecutive guest addresses, which are the bytes of a block from its first on (vm-memory's
/// `GuestMemoryRegion`). Offsets count bytes from the first address.
pub trait GuestMemoryRegion: Drop {
    // its addresses and their block
    ghost region: { Self → Region };

    /// The number of its addresses, at least 1.
    fn len(&self) -> GuestUsize
        ensures len { result ≡ (region self.now).size }
        ensures lawful { IsLawful (region self.now) };

    /// Its first address.
    fn start_addr(&self) -> GuestAddress
        ensures start { result.0 ≡ (region self.now).start }
        ensures lawful { IsLawful (region self.now) };

    /// The window of `count` bytes from an offset on, InvalidBackendAddress if the region doesn't have
    /// them all (vm-memory's `GuestMemoryRegion::get_slice`).
    fn get_slice(
        &self,
        offset: MemoryRegionAddress,
        count: usize,
    ) -> Result<VolatileSlice, GuestMemoryError>
        ensures { result ≡ window_in (region self.now) offset.0 count };

    /// Its last address.
    #[inline]
    final fn last_addr(&self) -> GuestAddress
        ensures last { result.0 ≡ last_address (region self.now) }
        ensures lawful { IsLawful (region self.now) }
    {
        GuestAddress(self.start_addr().0 + (self.len() - 1))
    }

    /// Whether the region has this offset.
    #[inline]
    final fn address_in_range(&self, addr: MemoryRegionAddress) -> bool
        ensures { result ≡ nat_lt addr.0 (region self.now).size }
    {
        addr.0 < self.len()
    }

    /// The offset, if the region has it.
    #[inline]
    final fn check_address(&self, addr: MemoryRegionAddress) -> Option<MemoryRegionAddress>
        ensures { result ≡ checked_in (region self.now) addr.0 }
    {
        if self.address_in_range(addr) {
            Some(addr)
        } else {
            None
        }
    }

    /// The offset `offset` bytes after another, if the region has it.
    #[inline]
    final fn checked_offset(
        &self,
        base: MemoryRegionAddress,
        offset: usize,
    ) -> Option<MemoryRegionAddress>
        ensures { result ≡ checked_in (region self.now) (base.0 + offset) }
    {
        let size = self.len();
        match base.0.checked_add(offset as u64) {
            Some(addr) if addr < size => Some(MemoryRegionAddress(addr)),
            _ => None,
        }
    }

    /// The offset of a guest's address, if the region has the address.
    #[inline]
    final fn to_region_addr(&self, addr: GuestAddress) -> Option<MemoryRegionAddress>
        ensures { result ≡ offset_in (region self.now) addr.0 }
    {
        let start = self.start_addr().0;
        if start <= addr.0 {
            self.check_address(MemoryRegionAddress(addr.0 - start))
        } else {
            None
        }
    }

    /// The window of all bytes of the region.
    #[inline]
    final fn as_volatile_slice(&self) -> Result<VolatileSlice, GuestMemoryError>
        ensures { result ≡ window_in (region self.now) 0 (region self.now).size }
    {
        self.get_slice(MemoryRegionAddress(0), self.len() as usize)
    }

    /// The block of the byte at an offset, and its offset there, or InvalidBackendAddress if the region
    /// doesn't have it (vm-memory's `GuestMemoryRegion::get_host_address`).
    #[inline]
    final fn get_host_address(
        &self,
        addr: MemoryRegionAddress,
    ) -> Result<HostAddress, GuestMemoryError>
        ensures { result ≡ host_address_in (region self.now) addr.0 }
    {
        match self.get_slice(addr, 1) {
            Ok(window) => Ok(HostAddress {
                block: window.block(),
                offset: window.block_offset(),
            }),
            Err(error) => Err(error),
        }
    }
}

/// A shared region is a region too.
impl<R: GuestMemoryRegion> GuestMemoryRegion for Arc<R> {
    ghost region = { λ r. R.region (arc_value r) };

    #[inline]
    fn len(&self) -> GuestUsize {
        (**self).len()
    }

    #[inline]
    fn start_addr(&self) -> GuestAddress {
        (**self).start_addr()
    }

    #[inline]
    fn get_slice(
        &self,
        offset: MemoryRegionAddress,
        count: usize,
    ) -> Result<VolatileSlice, GuestMemoryError> {
        (**self).get_slice(offset, count)
    }
}

/// The consecutive addresses from one on, which are the bytes of a block (vm-memory's
/// `GuestRegionMmap`).
#[derive(Clone, Copy, Debug)]
pub struct GuestRegionMmap {
    start: u64,
    size: u64,
    block: usize,
}

impl Model for GuestRegionMmap {
    ghost use Rattle.vm_memory.specs.Layout.{Region, IsLawful};

    ghost Value = { Region };

    ghost view = { λ r. record { start = r.start; size = r.size; block = r.block } };

    ghost invariant = { λ r. IsLawful (record { start = r.start; size = r.size; block = r.block }) };

    ghost inverse = { λ r. record { start = r.start; size = r.size; block = r.block } };
}

impl GuestRegionMmap {
    /// The region from `base` on over a whole block, None if its last address doesn't fit 64 bits.
    pub fn new(region: MmapRegion, base: GuestAddress) -> Option<GuestRegionMmap>
        ensures { result ≡ region_over region base.0 }
    {
        let size = region.size() as u64;
        if base.0 > u64::MAX - (size - 1) {
            return None;
        }
        Some(GuestRegionMmap {
            start: base.0,
            size,
            block: region.block(),
        })
    }

    /// The region of `size` addresses from `base` on, over a new block (vm-memory's
    /// `GuestRegionMmap::from_range`). MmapRegion if the size is 0, OutOfMemory, InvalidGuestRegion if
    /// the last address doesn't fit 64 bits; the block stays in the host then.
    pub fn from_range<B: NewBitmap>(
        alloc: Global,
        h: &mut HostMemory<B>,
        base: GuestAddress,
        size: usize,
    ) -> Result<GuestRegionMmap, FromRangesError>
        ensures made { IsRegionMade B.count h.old h.new base.0 size result }
        ensures held { IfOk result (λ r. LiesIn (lengths h.new) (whole_of r)) }
    {
        let region = match MmapRegion::new(alloc, h, size) {
            Ok(region) => region,
            Err(MmapRegionError::OutOfMemory) => return Err(FromRangesError::OutOfMemory),
            Err(error) => return Err(FromRangesError::MmapRegion(error)),
        };
        match GuestRegionMmap::new(region, base) {
            Some(region) => Ok(region),
            None => Err(FromRangesError::InvalidGuestRegion),
        }
    }
}

impl GuestRegionMmap {
    // The window of all bytes of the region.
    #[inline]
    pub(crate) fn whole(&self) -> VolatileSlice
        ensures { result ≡ whole_of self.now }
    {
        VolatileSlice::new(self.block, 0, self.size as usize)
    }
}

impl GuestMemoryRegion for GuestRegionMmap {
    ghost region = { λ r. r };

    #[inline]
    fn len(&self) -> GuestUsize {
        self.size
    }

    #[inline]
    fn start_addr(&self) -> GuestAddress {
        GuestAddress(self.start)
    }

    #[inline]
    fn get_slice(
        &self,
        offset: MemoryRegionAddress,
        count: usize,
    ) -> Result<VolatileSlice, GuestMemoryError> {
        if offset.0 <= self.size && count as u64 <= self.size - offset.0 {
            Ok(VolatileSlice::new(self.block, offset.0 as usize, count))
        } else {
            Err(GuestMemoryError::InvalidBackendAddress)
        }
    }
}
