//! Guest memory as its regions (vm-memory's `GuestMemoryBackend`).

ghost use Rattle.std.specs.Prelude.{◌≡◌, ◌+◌, List, [], ◌∷◌, length, option_map, is_some, MatchOption};
ghost use Rattle.std.specs.Iterator.{at_most};
ghost use Rattle.vm_memory.specs.Layout.{Region, region_at, regions_of, IsLayout};
ghost use Rattle.vm_memory.specs.Backend.{checked_at, host_address_at, last_of, region_and_offset, slice_at};

use crate::collection::GuestRegionCollection;
use crate::error::GuestMemoryError;
use crate::region::{GuestMemoryRegion, HostAddress};
use std::marker::Model;
use std::sync::Arc;
use vm_memory_core::{GuestAddress, MemoryRegionAddress, VolatileSlice};

/// The regions of a layout, by ascending address.
#[derive(Drop)]
pub struct RegionIter<'a, R: GuestMemoryRegion> {
    regions: &'a [Arc<R>],
}

impl<'a, R: GuestMemoryRegion> Model for RegionIter<'a, R> {
    ghost use Rattle.std.specs.Prelude.{List};
    ghost use Rattle.vm_memory.specs.Layout.{Region, regions_of};

    ghost Value = { List Region };

    ghost view = { λ i. regions_of R.region i.regions.now };
}

impl<'a, R: GuestMemoryRegion> Iterator for RegionIter<'a, R> {
    type Item = &'a R;

    ghost next_gives = { λ s r t. MatchOption r ((s ≡ []) × (t ≡ [])) (λ x. s ≡ R.region x.now ∷ t) };

    ghost remaining = { λ s. at_most (length s) };

    fn next(&mut self) -> Option<&'a R> {
        match self.regions.split_first() {
            Some((first, rest)) => {
                self.regions = rest;
                Some(first)
            }
            None => None,
        }
    }
}

/// A guest's physical memory, as regions by ascending address (vm-memory's `GuestMemoryBackend`).
pub trait GuestMemoryBackend {
    /// The type of a region.
    type R: GuestMemoryRegion;

    // the regions
    ghost layout: { Self → List Region };

    /// The number of regions.
    fn num_regions(&self) -> usize
        ensures { result ≡ length (layout self.now) };

    /// The region that has an address, None if no region has it.
    fn find_region(&self, addr: GuestAddress) -> Option<&Self::R>
        ensures found { option_map (λ r. Self.R.region r.now) result ≡ region_at (layout self.now) addr.0 }
        ensures layout { IsLayout (layout self.now) };

    /// The regions, by ascending address.
    fn iter(&self) -> RegionIter<'_, Self::R>
        ensures { result ≡ layout self.now };

    /// The greatest address that a region has; 0 if there is no region.
    fn last_addr(&self) -> GuestAddress
        ensures { result.0 ≡ last_of (layout self.now) };

    /// The region that has an address, and the address's offset in it, in bytes.
    #[inline]
    final fn to_region_addr(&self, addr: GuestAddress) -> Option<(&Self::R, MemoryRegionAddress)>
        ensures { option_map (λ p. (Self.R.region p.0.now, p.1.0)) result
            ≡ region_and_offset (layout self.now) addr.0 }
    {
        match self.find_region(addr) {
            Some(region) => {
                let offset = addr.0 - region.start_addr().0;
                Some((region, MemoryRegionAddress(offset)))
            }
            None => None,
        }
    }

    /// Whether a region has an address.
    #[inline]
    final fn address_in_range(&self, addr: GuestAddress) -> bool
        ensures { result ≡ is_some (region_at (layout self.now) addr.0) }
    {
        self.find_region(addr).is_some()
    }

    /// The address, if a region has it.
    #[inline]
    final fn check_address(&self, addr: GuestAddress) -> Option<GuestAddress>
        ensures { result ≡ checked_at (layout self.now) addr.0 }
    {
        match self.find_region(addr) {
            Some(_) => Some(addr),
            None => None,
        }
    }

    /// The address `offset` bytes after another, if a region has it.
    #[inline]
    final fn checked_offset(&self, base: GuestAddress, offset: usize) -> Option<GuestAddress>
        ensures { result ≡ checked_at (layout self.now) (base.0 + offset) }
    {
        match base.0.checked_add(offset as u64) {
            Some(addr) => self.check_address(GuestAddress(addr)),
            None => None,
        }
    }

    /// The window of `count` bytes from an address on. InvalidGuestAddress if no region has the address,
    /// InvalidBackendAddress if its region doesn't have all of the bytes.
    #[inline]
    final fn get_slice(
        &self,
        addr: GuestAddress,
        count: usize,
    ) -> Result<VolatileSlice, GuestMemoryError>
        ensures { result ≡ slice_at (layout self.now) addr count }
    {
        match self.to_region_addr(addr) {
            Some((region, offset)) => region.get_slice(offset, count),
            None => Err(GuestMemoryError::InvalidGuestAddress(addr)),
        }
    }

    /// The block and the offset of the byte at an address, InvalidGuestAddress if no region has it
    /// (vm-memory's `GuestMemoryBackend::get_host_address`).
    #[inline]
    final fn get_host_address(&self, addr: GuestAddress) -> Result<HostAddress, GuestMemoryError>
        ensures { result ≡ host_address_at (layout self.now) addr }
    {
        match self.to_region_addr(addr) {
            Some((region, offset)) => region.get_host_address(offset),
            None => Err(GuestMemoryError::InvalidGuestAddress(addr)),
        }
    }
}

impl<R: GuestMemoryRegion> GuestMemoryBackend for GuestRegionCollection<R> {
    type R = R;

    ghost layout = { λ m. m };

    #[inline]
    fn num_regions(&self) -> usize {
        self.count()
    }

    #[inline(always)]
    fn find_region(&self, addr: GuestAddress) -> Option<&R> {
        self.find(addr.0)
    }

    fn iter(&self) -> RegionIter<'_, R> {
        RegionIter {
            regions: self.shared(),
        }
    }

    fn last_addr(&self) -> GuestAddress {
        let count = self.count();
        if count == 0 {
            return GuestAddress(0);
        }
        self.region(count - 1).last_addr()
    }
}
