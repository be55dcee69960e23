//! The regions of a guest's memory.

ghost use Rattle.std.specs.Prelude.{◌≡◌, ◌+◌, ◌<◌, ◌^◌, [], IfSome, None, min, option_map, true};
ghost use Rattle.vm_iotlb.specs.declared.permissions.Permissions.{Permissions};
ghost use Rattle.vm_memory.specs.Layout.{IsLayout, left_at, place, region_at};
ghost use Rattle.vm_memory.specs.Memory.{reach};
ghost use Rattle.vm_memory.specs.Slices.{IsWindowAt};
ghost use Rattle.fs_regions.specs.Places.{places_in, untranslated};
ghost use Rattle.fs_regions.specs.Making.{Makes};
ghost use Rattle.fs_regions.specs.Windows.{LiesAt};

use crate::region::MemoryRegion;
use std::alloc::Global;
use std::marker::Model;
use vm_memory::{
    GuestMemoryBackend, GuestMemoryRegion, GuestRegionCollection, GuestRegionCollectionError,
};
use vm_memory_core::{GuestAddress, MemoryRegionAddress, VolatileSlice};

/// Why some regions aren't a guest's memory.
#[derive(Clone, Copy, Debug, PartialEq, Eq)]
pub enum RegionsError {
    /// There are no regions.
    NoRegion,
    /// They don't ascend.
    Unsorted,
    /// Two of them have an address in common.
    Overlap,
    /// An allocation failed.
    OutOfMemory,
}

/// A guest's memory: regions by ascending address, none of which has an address in common with another.
#[derive(Drop)]
pub struct GuestRegions {
    regions: GuestRegionCollection<MemoryRegion>,
    // A copy of the first region, in which most look-ups find their address.
    first: Option<MemoryRegion>,
}

impl Model for GuestRegions {
    ghost use Rattle.std.specs.Prelude.{List};
    ghost use Rattle.vm_memory.specs.Layout.{Region, IsLayout};
    ghost use Rattle.fs_regions.specs.Making.{BeginsWith};

    ghost Value = { List Region };

    ghost view = { λ m. m.regions };

    ghost invariant = { λ m. IsLayout m.regions × BeginsWith m.first m.regions };
}

impl GuestRegions {
    /// No memory.
    pub fn none(alloc: Global) -> GuestRegions
        ensures { result ≡ [] }
    {
        GuestRegions {
            regions: GuestRegionCollection::new(alloc),
            first: None,
        }
    }

    // The memory of some regions that are a layout.
    fn of_collection(regions: GuestRegionCollection<MemoryRegion>) -> GuestRegions
        ensures { result ≡ regions }
    {
        // Its contract says that they are a layout.
        let _ = regions.find_region(GuestAddress(0));
        let mut left = regions.iter();
        let first = match left.next() {
            Some(region) => Some(*region),
            None => None,
        };
        GuestRegions { regions, first }
    }

    /// The memory of some regions, which must ascend and have no address in common. Errors: `NoRegion`,
    /// `Unsorted`, `Overlap`, `OutOfMemory`.
    pub fn of_regions(
        alloc: Global,
        regions: Vec<MemoryRegion>,
    ) -> Result<GuestRegions, RegionsError>
        ensures { Makes regions.items result }
    {
        match GuestRegionCollection::from_regions(alloc, regions) {
            Ok(regions) => Ok(GuestRegions::of_collection(regions)),
            Err(GuestRegionCollectionError::NoMemoryRegion) => Err(RegionsError::NoRegion),
            Err(GuestRegionCollectionError::MemoryRegionOverlap) => Err(RegionsError::Overlap),
            Err(GuestRegionCollectionError::UnsortedMemoryRegions) => Err(RegionsError::Unsorted),
            Err(GuestRegionCollectionError::OutOfMemory) => Err(RegionsError::OutOfMemory),
        }
    }

    // The region that has an address.
    #[inline(always)]
    fn find(&self, addr: u64) -> Option<&MemoryRegion>
        ensures found { option_map (λ r. r.now) result ≡ region_at self.now addr }
        ensures layout { IsLayout self.now }
    {
        match &self.first {
            Some(first) => {
                if first.has(addr) {
                    return Some(first);
                }
                self.regions.find_region(GuestAddress(addr))
            }
            None => self.regions.find_region(GuestAddress(addr)),
        }
    }

    // Whether the region of an address has each of `len` addresses from there on.
    #[inline(always)]
    fn has_in_one(&self, addr: u64, len: usize) -> bool
        ensures { result ≡ true → addr + len < 2 ^ 64 → (access : Permissions)
            → reach (places_in (untranslated self.now)) access addr len ≡ true }
    {
        match self.find(addr) {
            Some(region) => len as u64 <= region.len() - (addr - region.start_addr().0),
            None => false,
        }
    }

    /// Whether each of `len` addresses from one on is mapped, and their end is an address.
    #[inline(always)]
    pub fn reaches(&self, addr: u64, len: usize) -> bool
        ensures { (access : Permissions)
            → result ≡ reach (places_in (untranslated self.now)) access addr len }
    {
        len as u64 <= u64::MAX - addr && (self.has_in_one(addr, len) || self.has_each(addr, len))
    }

    // The same of addresses whose end is one, across regions.
    #[cold]
    #[inline(never)]
    fn has_each(&self, addr: u64, len: usize) -> bool
        requires { addr + len < 2 ^ 64 }
        ensures { (access : Permissions)
            → result ≡ reach (places_in (untranslated self.now)) access addr len }
    {
        self.regions.has_range(GuestAddress(addr), len)
    }

    /// The place of `len` addresses from one on, if they lie in one region: its number, and the offset
    /// there, added.
    #[inline(always)]
    pub fn place_at(&self, addr: u64, len: usize) -> Option<usize>
        requires { 0 < len }
        ensures { IfSome result (LiesAt (place self.now) addr len (left_at self.now addr)) }
    {
        match self.find(addr) {
            Some(region) => {
                let offset = addr - region.start_addr().0;
                if len as u64 <= region.len() - offset {
                    Some(region.place_of(offset))
                } else {
                    None
                }
            }
            None => None,
        }
    }

    /// The longest window of at most `most` bytes from an address on: its block is the region's number, and
    /// its offset is from the region's first byte. None if the address isn't mapped.
    #[inline(always)]
    pub fn window_at(&self, addr: u64, most: usize) -> Option<VolatileSlice>
        requires { 0 < most }
        ensures none { result ≡ None → place self.now addr ≡ None }
        ensures some { IfSome result (IsWindowAt (place self.now) addr most) }
        ensures longest { IfSome result (λ w. w.len ≡ min most (left_at self.now addr)) }
    {
        match self.find(addr) {
            Some(region) => {
                let offset = addr - region.start_addr().0;
                let len = (region.len() - offset).min(most as u64) as usize;
                match region.get_slice(MemoryRegionAddress(offset), len) {
                    Ok(window) => Some(window),
                    Err(_) => None,
                }
            }
            None => None,
        }
    }
}
