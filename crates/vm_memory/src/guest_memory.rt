//! Guest memory by physical address: checks, reads and writes (vm-memory's `GuestMemoryMmap`).

ghost use Rattle.std.specs.Prelude.{◌≡◌, ◌<◌, ◌≤◌, ℕ, List, None, IfSome, IfOk, OnErr, length, min};
ghost use Rattle.std.specs.List.{list_all};
ghost use Rattle.std.specs.Option.{is_some};
ghost use Rattle.vm_memory_core.specs.Host.{shape};
ghost use Rattle.vm_memory_core.specs.Window.{LiesIn};
ghost use Rattle.vm_memory.specs.Layout.{left_at, place, AreHeld, HostHolds};
ghost use Rattle.vm_memory.specs.Making.{shared_regions, AreRegionsMade, IsMadeOf};
ghost use Rattle.vm_memory.specs.Memory.{memory_of, circular, located, reached, read_first, stored_first};
ghost use Rattle.vm_memory.specs.Memory.{transferred};
ghost use Rattle.vm_memory.specs.Slices.{AddsLongest, IsWindowAt, Joins, StayIn};

use crate::collection::GuestRegionCollection;
use crate::error::{FromRangesError, GuestMemoryError};
use crate::region::{GuestMemoryRegion, GuestRegionMmap};
use crate::slice_iterator::window_at;
use smallvec::SmallVec;
use std::alloc::{AllocError, Global};
use std::sync::Arc;
use vm_memory_core::{GuestAddress, HostBlocks, HostMemory, NewBitmap, VolatileSlice, put_at};

/// A guest's physical memory over blocks of the host (vm-memory's `GuestMemoryMmap`).
pub type GuestMemoryMmap = GuestRegionCollection<GuestRegionMmap>;

impl GuestRegionCollection<GuestRegionMmap> {
    /// Memory of regions with these first addresses and sizes in bytes, each over a new block
    /// (vm-memory's `GuestMemoryMmap::from_ranges`). Errors: MmapRegion, InvalidGuestRegion or
    /// OutOfMemory for the first bad range, then Collection. Blocks that were made before an error stay
    /// in the host.
    pub fn from_ranges<B: NewBitmap>(
        alloc: Global,
        host: &mut HostMemory<B>,
        ranges: &[(GuestAddress, usize)],
    ) -> Result<GuestMemoryMmap, FromRangesError>
        ensures made { IsMadeOf B.count host.old host.new ranges.now result }
        ensures held { IfOk result (HostHolds host.new) }
    {
        match regions_over(alloc, host, ranges) {
            Ok(regions) => match GuestRegionCollection::from_arc_regions(alloc, regions) {
                Ok(memory) => Ok(memory),
                Err(fault) => Err(FromRangesError::Collection(fault)),
            },
            Err(error) => Err(error),
        }
    }
}

// Makes a region over a new block for each range.
fn regions_over<B: NewBitmap>(
    alloc: Global,
    host: &mut HostMemory<B>,
    ranges: &[(GuestAddress, usize)],
) -> Result<Vec<Arc<GuestRegionMmap>>, FromRangesError>
    ensures { AreRegionsMade B.count host.old host.new ranges.now (shared_regions (λ r. r) result) }
{
    let mut regions = Vec::new(alloc);
    for range in ranges {
        match GuestRegionMmap::from_range(alloc, host, range.0, range.1) {
            Ok(region) => {
                let Ok(region) = Arc::new(alloc, region) else {
                    return Err(FromRangesError::OutOfMemory);
                };
                match regions.push(region) {
                    Ok(()) => {}
                    Err(_) => return Err(FromRangesError::OutOfMemory),
                }
            }
            Err(error) => return Err(error),
        }
    }
    Ok(regions)
}

impl<R: GuestMemoryRegion> GuestRegionCollection<R> {
    // The longest window from an address on, of at most `most` bytes. None if the address has no place.
    #[inline]
    fn window_at(&self, addr: u64, most: usize) -> Option<VolatileSlice>
        requires { 0 < most }
        ensures none { result ≡ None → place self.now addr ≡ None }
        ensures some { IfSome result (IsWindowAt (place self.now) addr most) }
        ensures longest { IfSome result (λ w. w.len ≡ min most (left_at self.now addr)) }
        ensures held { (lengths : List ℕ) → AreHeld lengths self.now → IfSome result (LiesIn lengths) }
    {
        window_at(self, addr, most)
    }

    // The number of the `len` addresses from `addr` on before the first without a place; 0 follows the
    // greatest.
    fn reached_len(&self, addr: u64, len: usize) -> usize
        ensures { result ≡ reached (place self.now) (circular addr len) }
    {
        let mut done = 0;
        while done < len {
            let Some(window) = self.window_at(addr.wrapping_add(done as u64), len - done) else {
                return done;
            };
            done += window.len();
        }
        done
    }

    /// Whether each of the `len` physical addresses from `addr` on has a place; 0 follows the greatest
    /// address.
    pub fn has_range(&self, addr: GuestAddress, len: usize) -> bool
        ensures { result ≡ list_all (λ a. is_some (place self.now a)) (circular addr.0 len) }
    {
        self.reached_len(addr.0, len) == len
    }

    // Adds the windows of the `len` physical addresses from `addr` on; 0 follows the greatest address.
    // False if one of them has no place.
    pub(crate) fn push_physical<const N: usize>(
        &self,
        addr: GuestAddress,
        len: usize,
        windows: &mut SmallVec<VolatileSlice, N>,
    ) -> Result<bool, AllocError>
        ensures found { Joins windows.old.items windows.new.items
            (located (place self.now) (circular addr.0 len)) result }
        ensures longest { AddsLongest (left_at self.now) (circular addr.0 len) windows.old.items
            windows.new.items }
        ensures held { (lengths : List ℕ)
            → AreHeld lengths self.now
            → StayIn lengths windows.old.items windows.new.items }
        ensures lacking { OnErr result (windows.old.capacity ≤ length windows.new.items) }
    {
        let mut done = 0;
        while done < len {
            let Some(window) = self.window_at(addr.0.wrapping_add(done as u64), len - done) else {
                return Ok(false);
            };
            windows.push(window)?;
            done += window.len();
        }
        Ok(true)
    }

    // Reads bytes from an address on, up to the first without a place, and returns their number.
    pub(crate) fn read_some<H: HostBlocks>(&self, host: &H, buffer: &mut [u8], addr: u64) -> usize
        requires { HostHolds (H.host host.now) self.now }
        ensures count { result ≡ reached (place self.now) (circular addr (length buffer.old)) }
        ensures bytes { buffer.new ≡ read_first (memory_of (H.host host.now) self.now)
            (circular addr (length buffer.old)) result buffer.old }
    {
        let mut done = 0;
        while done < buffer.len() {
            let Some(window) = self.window_at(addr.wrapping_add(done as u64), buffer.len() - done)
            else {
                return done;
            };
            put_at(buffer, done, host.bytes(window));
            done += window.len();
        }
        done
    }

    // Writes bytes from an address on, up to the first without a place, and returns their number.
    pub(crate) fn write_some<B: NewBitmap>(
        &self,
        host: &mut HostMemory<B>,
        bytes: &[u8],
        addr: u64,
    ) -> usize
        requires { HostHolds host.old self.now }
        ensures count { result ≡ reached (place self.now) (circular addr (length bytes.now)) }
        ensures stored { memory_of host.new self.now
            ≡ stored_first (memory_of host.old self.now) (circular addr (length bytes.now)) result bytes.now }
        ensures shape { shape host.new ≡ shape host.old }
    {
        let mut done = 0;
        while done < bytes.len() {
            let Some(window) = self.window_at(addr.wrapping_add(done as u64), bytes.len() - done)
            else {
                return done;
            };
            host.write(window, &bytes[done..][..window.len()]);
            done += window.len();
        }
        done
    }

    /// Fills a buffer with the bytes from an address on; 0 follows the greatest address (vm-memory's
    /// `Bytes::read_slice`). InvalidGuestAddress if the first has no place. PartialBuffer if a later one
    /// has none: the bytes before it were read.
    pub fn read_slice<B: NewBitmap>(
        &self,
        host: &HostMemory<B>,
        buffer: &mut [u8],
        addr: GuestAddress,
    ) -> Result<(), GuestMemoryError>
        requires { HostHolds host.now self.now }
        ensures result { result ≡ transferred addr (length buffer.old)
            (reached (place self.now) (circular addr.0 (length buffer.old))) }
        ensures bytes { let all = circular addr.0 (length buffer.old) in
            buffer.new ≡ read_first (memory_of host.now self.now) all (reached (place self.now) all)
            buffer.old }
    {
        let completed = self.read_some(host, buffer, addr.0);
        outcome(addr, buffer.len(), completed)
    }

    /// Writes bytes from an address on and marks their pages; 0 follows the greatest address
    /// (vm-memory's `Bytes::write_slice`). InvalidGuestAddress if the first has no place. PartialBuffer
    /// if a later one has none: the bytes before it were written.
    pub fn write_slice<B: NewBitmap>(
        &self,
        host: &mut HostMemory<B>,
        bytes: &[u8],
        addr: GuestAddress,
    ) -> Result<(), GuestMemoryError>
        requires { HostHolds host.old self.now }
        ensures result { result ≡ transferred addr (length bytes.now)
            (reached (place self.now) (circular addr.0 (length bytes.now))) }
        ensures stored { let all = circular addr.0 (length bytes.now) in
            memory_of host.new self.now
            ≡ stored_first (memory_of host.old self.now) all (reached (place self.now) all) bytes.now }
        ensures shape { shape host.new ≡ shape host.old }
    {
        let completed = self.write_some(host, bytes, addr.0);
        outcome(addr, bytes.len(), completed)
    }
}

// The result of a transfer of `expected` bytes at an address, of which `completed` were transferred.
pub(crate) fn outcome(
    addr: GuestAddress,
    expected: usize,
    completed: usize,
) -> Result<(), GuestMemoryError>
    ensures { result ≡ transferred addr expected completed }
{
    if completed == expected {
        Ok(())
    } else if completed == 0 {
        Err(GuestMemoryError::InvalidGuestAddress(addr))
    } else {
        Err(GuestMemoryError::PartialBuffer {
            expected,
            completed,
        })
    }
}
