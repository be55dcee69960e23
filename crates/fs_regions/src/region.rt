//! A region of a guest's memory, which lies in host memory.

ghost use Rattle.std.specs.Prelude.{◌≡◌, ◌+◌, ◌%◌, ◌^◌};
ghost use Rattle.vm_iotlb.specs.Table.{is_within};
ghost use Rattle.fs_regions.specs.Places.{region_if};

use std::marker::Model;
use vm_memory::{GuestMemoryError, GuestMemoryRegion};
use vm_memory_core::{GuestAddress, GuestUsize, MemoryRegionAddress, VolatileSlice};

/// The bytes of a page: regions have whole pages.
const PAGE_SIZE: u64 = vm_bitmaps::PAGE_SIZE as u64;

/// Whole pages of a guest's memory, from an address on. The caller knows the region by its number, such as
/// its host address.
#[derive(Clone, Copy, Debug)]
pub struct MemoryRegion {
    start: u64,
    size: u64,
    number: usize,
}

impl Model for MemoryRegion {
    ghost use Rattle.vm_memory.specs.Layout.{Region};
    ghost use Rattle.fs_regions.specs.Places.{HasWholePages};

    ghost Value = { Region };

    ghost view = { λ r. record { start = r.start; size = r.size; block = r.number } };

    ghost invariant = { λ r. HasWholePages (record { start = r.start; size = r.size; block = r.number }) };

    ghost inverse = { λ r. record { start = r.start; size = r.size; number = r.block } };
}

impl MemoryRegion {
    /// The region of `size` bytes from an address on, with this number. None if it is empty, ends past the
    /// last address, or its address or size isn't a multiple of 4096.
    pub fn new(start: u64, size: u64, number: usize) -> Option<MemoryRegion>
        ensures { result ≡ region_if start size number }
    {
        if size == 0
            || start % PAGE_SIZE != 0
            || size % PAGE_SIZE != 0
            || start > u64::MAX - (size - 1)
        {
            return None;
        }
        Some(MemoryRegion {
            start,
            size,
            number,
        })
    }

    /// Whether it has an address.
    #[inline(always)]
    pub(crate) fn has(&self, addr: u64) -> bool
        ensures { result ≡ is_within self.now.start self.now.size addr }
    {
        self.start <= addr && addr - self.start < self.size
    }

    /// The place of an offset: the region's number, and the offset, added.
    #[inline(always)]
    pub(crate) fn place_of(&self, offset: u64) -> usize
        ensures { result ≡ (self.now.block + offset) % 2 ^ 64 }
    {
        self.number.wrapping_add(offset as usize)
    }
}

impl GuestMemoryRegion for MemoryRegion {
    ghost region = { λ r. r };

    #[inline]
    fn len(&self) -> GuestUsize {
        self.size
    }

    #[inline]
    fn start_addr(&self) -> GuestAddress {
        GuestAddress(self.start)
    }

    #[inline]
    fn get_slice(
        &self,
        offset: MemoryRegionAddress,
        count: usize,
    ) -> Result<VolatileSlice, GuestMemoryError> {
        if offset.0 <= self.size && count as u64 <= self.size - offset.0 {
            Ok(VolatileSlice::new(self.number, offset.0 as usize, count))
        } else {
            Err(GuestMemoryError::InvalidBackendAddress)
        }
    }
}
