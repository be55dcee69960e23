//! Regions in ascending order without a common address (vm-memory's `GuestRegionCollection`).

ghost use Rattle.std.specs.Prelude.{◌≡◌, ◌+◌, ◌-◌, ◌<◌, ◌≤◌, [], length, map, option_map, slice_get, Some};
ghost use Rattle.std.specs.Prelude.{None, IfOk, OnErr};
ghost use Rattle.std.specs.Bool.{OnFalse, OnTrue};
ghost use Rattle.std.specs.List.{list_any};
ghost use Rattle.std.specs.Arc.{arc_value};
ghost use Rattle.memory_requests.specs.Refused.{MemoryWasRefused};
ghost use Rattle.vm_memory.specs.Layout.{Region, end_at, overlap, region_at, start_at, regions_of, IsLawful};
ghost use Rattle.vm_memory.specs.Layout.{IsLayout};
ghost use Rattle.vm_memory.specs.Collecting.{fault_between, fault_of, unless, with_removed, Collects};
ghost use Rattle.vm_memory.specs.Collecting.{Inserts, RegionsWereRefused, Removes};

use crate::error::GuestRegionCollectionError;
use crate::region::GuestMemoryRegion;
use memory_requests::{held_again, list_with_room, reserve, shared};
use std::alloc::{AllocError, Global};
use std::marker::Model;
use std::sync::Arc;
use vm_memory_core::{GuestAddress, GuestUsize};

/// The regions of a guest's physical memory, by ascending address (vm-memory's `GuestRegionCollection`).
/// Collections share their regions.
#[derive(Drop)]
pub struct GuestRegionCollection<R: GuestMemoryRegion> {
    alloc: Global,
    regions: Vec<Arc<R>>,
}

impl<R: GuestMemoryRegion> Model for GuestRegionCollection<R> {
    ghost use Rattle.std.specs.Prelude.{List};
    ghost use Rattle.vm_memory.specs.Layout.{Region, IsLayout, regions_of};

    ghost Value = { List Region };

    ghost view = { λ m. regions_of R.region m.regions.items };

    ghost invariant = { λ m. IsLayout (regions_of R.region m.regions.items) };
}

impl<R: GuestMemoryRegion> GuestRegionCollection<R> {
    /// A collection without a region.
    pub fn new(alloc: Global) -> GuestRegionCollection<R>
        ensures { result ≡ [] }
    {
        GuestRegionCollection {
            alloc,
            regions: Vec::new(alloc),
        }
    }

    /// A collection of regions (vm-memory's `GuestRegionCollection::from_regions`). Errors:
    /// NoMemoryRegion if there are none, UnsortedMemoryRegions or MemoryRegionOverlap at the first
    /// neighbours that don't ascend or have an address in common, OutOfMemory.
    pub fn from_regions(
        alloc: Global,
        regions: Vec<R>,
    ) -> Result<GuestRegionCollection<R>, GuestRegionCollectionError>
        ensures { Collects (map R.region regions.items) result }
    {
        if let Some(fault) = fault_among(&regions) {
            return Err(fault);
        }
        match share(alloc, regions) {
            Ok(regions) => Ok(GuestRegionCollection { alloc, regions }),
            Err(_) => Err(GuestRegionCollectionError::OutOfMemory),
        }
    }

    /// The same of shared regions, without an allocation: NoMemoryRegion, UnsortedMemoryRegions or
    /// MemoryRegionOverlap (vm-memory's `GuestRegionCollection::from_arc_regions`).
    pub fn from_arc_regions(
        alloc: Global,
        regions: Vec<Arc<R>>,
    ) -> Result<GuestRegionCollection<R>, GuestRegionCollectionError>
        ensures { result
            ≡ unless (fault_of (regions_of R.region regions.items)) (regions_of R.region regions.items) }
    {
        match fault_among(&regions) {
            None => Ok(GuestRegionCollection { alloc, regions }),
            Some(fault) => Err(fault),
        }
    }

    /// A collection with one more region (vm-memory's `GuestRegionCollection::insert_region`).
    /// MemoryRegionOverlap if it has an address in common with another, OutOfMemory.
    pub fn insert_region(
        &self,
        region: Arc<R>,
    ) -> Result<GuestRegionCollection<R>, GuestRegionCollectionError>
        ensures { Inserts (R.region (arc_value region)) self.now result }
    {
        let start = region.start_addr().0;
        let last = region.last_addr().0;
        let at = self.begun(start);
        if self.collides(at, start, last) {
            return Err(GuestRegionCollectionError::MemoryRegionOverlap);
        }
        let Ok(mut regions) = self.copied() else {
            return Err(GuestRegionCollectionError::OutOfMemory);
        };
        if reserve(&mut regions, 1).is_err() {
            return Err(GuestRegionCollectionError::OutOfMemory);
        }
        regions.insert(at, region).unwrap();
        Ok(GuestRegionCollection {
            alloc: self.alloc,
            regions,
        })
    }

    // Whether a region has an address from `start` to `last`, both included. The first `at` regions
    // begin at `start` or below it.
    fn collides(&self, at: usize, start: u64, last: u64) -> bool
        requires order { start ≤ last }
        requires most { at ≤ length self.now }
        requires below { 0 < at → start_at self.now (at - 1) ≤ start }
        requires above { at < length self.now → start < start_at self.now at }
        ensures { result
            ≡ list_any (overlap (record { start = start; size = last - start + 1; block = 0 })) self.now }
    {
        if self.ends_past(at, start) {
            return true;
        }
        self.begins_by(at, last)
    }

    // Whether the region before the `at`-th has an address or a greater one.
    fn ends_past(&self, at: usize, addr: u64) -> bool
        requires { at ≤ length self.now }
        ensures past { OnTrue result ((0 < at) × (addr < end_at self.now (at - 1))) }
        ensures before { OnFalse result (0 < at → end_at self.now (at - 1) ≤ addr) }
    {
        if at == 0 {
            return false;
        }
        addr <= self.region(at - 1).last_addr().0
    }

    // Whether the `at`-th region begins at an address or below it.
    fn begins_by(&self, at: usize, addr: u64) -> bool
        ensures by { OnTrue result ((at < length self.now) × (start_at self.now at ≤ addr)) }
        ensures above { OnFalse result (at < length self.now → addr < start_at self.now at) }
        ensures layout { IsLayout self.now }
    {
        if at >= self.count() {
            return false;
        }
        self.region(at).start_addr().0 <= addr
    }

    /// A collection without the region of this first address and size in bytes, and that region
    /// (vm-memory's `GuestRegionCollection::remove_region`). NoMemoryRegion if there is none,
    /// OutOfMemory.
    pub fn remove_region(
        &self,
        base: GuestAddress,
        size: GuestUsize,
    ) -> Result<(GuestRegionCollection<R>, Arc<R>), GuestRegionCollectionError>
        ensures { Removes base.0 size self.now (with_removed R.region result) }
    {
        let begun = self.begun(base.0);
        if begun == 0 {
            return Err(GuestRegionCollectionError::NoMemoryRegion);
        }
        let last = self.region(begun - 1);
        if last.start_addr().0 != base.0 {
            return Err(GuestRegionCollectionError::NoMemoryRegion);
        }
        if last.len() != size {
            return Err(GuestRegionCollectionError::NoMemoryRegion);
        }
        let Ok(mut regions) = self.copied() else {
            return Err(GuestRegionCollectionError::OutOfMemory);
        };
        let removed = regions.remove(begun - 1);
        Ok((
            GuestRegionCollection {
                alloc: self.alloc,
                regions,
            },
            removed,
        ))
    }

    /// A collection of the same regions. AllocError if the allocator refuses its memory.
    pub fn try_clone(&self) -> Result<GuestRegionCollection<R>, AllocError>
        ensures same { IfOk result (λ m. m ≡ self.now) }
        ensures refused { OnErr result MemoryWasRefused }
    {
        let regions = self.copied()?;
        Ok(GuestRegionCollection {
            alloc: self.alloc,
            regions,
        })
    }

    // A new list of the same regions.
    fn copied(&self) -> Result<Vec<Arc<R>>, AllocError>
        ensures copy { IfOk result (λ v. regions_of R.region v.items ≡ self.now) }
        ensures refused { OnErr result MemoryWasRefused }
    {
        let mut all = list_with_room(self.alloc, self.regions.len())?;
        for region in &self.regions {
            // The list has room already, but no clause of a contract here says so.
            reserve(&mut all, 1)?;
            all.push(held_again(region)?).unwrap();
        }
        Ok(all)
    }

    // The number of regions.
    #[inline]
    pub(crate) fn count(&self) -> usize
        ensures count { result ≡ length self.now }
        ensures layout { IsLayout self.now }
    {
        self.regions.len()
    }

    // The regions.
    pub(crate) fn shared(&self) -> &[Arc<R>]
        ensures { regions_of R.region result.now ≡ self.now }
    {
        &self.regions
    }

    // The region at an index.
    #[inline]
    pub(crate) fn region(&self, at: usize) -> &R
        requires { at < length self.now }
        ensures { slice_get self.now at ≡ Some (R.region result.now) }
    {
        &self.regions[at]
    }

    // The number of regions that begin at an address or below it, by binary search.
    #[inline(always)]
    fn begun(&self, addr: u64) -> usize
        ensures most { result ≤ length self.now }
        ensures below { 0 < result → start_at self.now (result - 1) ≤ addr }
        ensures above { result < length self.now → addr < start_at self.now result }
        ensures layout { IsLayout self.now }
    {
        let mut low = 0;
        let mut high = self.count();
        while low < high {
            let middle = low + (high - low) / 2;
            if self.region(middle).start_addr().0 <= addr {
                low = middle + 1;
            } else {
                high = middle;
            }
        }
        low
    }

    // The region that has an address, None if no region has it.
    #[inline(always)]
    pub(crate) fn find(&self, addr: u64) -> Option<&R>
        ensures found { option_map (λ r. R.region r.now) result ≡ region_at self.now addr }
        ensures layout { IsLayout self.now }
    {
        let begun = self.begun(addr);
        if begun == 0 {
            return None;
        }
        let region = self.region(begun - 1);
        if addr - region.start_addr().0 < region.len() {
            Some(region)
        } else {
            None
        }
    }
}

// Puts each region into an `Arc`.
fn share<R: GuestMemoryRegion>(alloc: Global, regions: Vec<R>) -> Result<Vec<Arc<R>>, AllocError>
    ensures shared { IfOk result (λ v. regions_of R.region v.items ≡ map R.region regions.items) }
    ensures refused { OnErr result (RegionsWereRefused (length regions.items)) }
{
    let mut all = list_with_room(alloc, regions.len())?;
    for region in regions {
        // The list has room already, but no clause of a contract here says so.
        reserve(&mut all, 1)?;
        match shared(alloc, region) {
            Ok(region) => all.push(region).unwrap(),
            Err(_) => return Err(AllocError),
        }
    }
    Ok(all)
}

// The error of two consecutive regions, if they have one.
fn fault_of_pair<R: GuestMemoryRegion>(first: &R, second: &R) -> Option<GuestRegionCollectionError>
    ensures fault { result ≡ fault_between (R.region first.now) (R.region second.now) }
    ensures lawful { IsLawful (R.region second.now) }
{
    let start = second.start_addr().0;
    if start < first.start_addr().0 {
        Some(GuestRegionCollectionError::UnsortedMemoryRegions)
    } else if start <= first.last_addr().0 {
        Some(GuestRegionCollectionError::MemoryRegionOverlap)
    } else {
        None
    }
}

// The first error of some regions, if they have one.
fn fault_among<R: GuestMemoryRegion>(regions: &[R]) -> Option<GuestRegionCollectionError>
    ensures fault { result ≡ fault_of (map R.region regions.now) }
    ensures layout { result ≡ None → IsLayout (map R.region regions.now) }
{
    let count = regions.len();
    if count == 0 {
        return Some(GuestRegionCollectionError::NoMemoryRegion);
    }
    // For the proof: the first region is lawful, as `fault_of_pair` shows for each other one.
    let _ = regions[0].len();
    for at in 1..count {
        match fault_of_pair(&regions[at - 1], &regions[at]) {
            Some(fault) => return Some(fault),
            None => {}
        }
    }
    None
}
