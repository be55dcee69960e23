//! Guest memory as a device uses it (vm-memory's `GuestMemory`).

ghost use Rattle.std.specs.Prelude.{◌≡◌, ◌≤◌, ◌⊎◌, ℕ, List, length, false, true, option_map, IfOk, IfErr};
ghost use Rattle.std.specs.Prelude.{OnErr, Result, refl};
ghost use Rattle.std.specs.Iterator.{at_most, Drains};
ghost use Rattle.vm_memory_core.specs.Host.{Host, lengths, shape};
ghost use Rattle.vm_memory_core.specs.Window.{Window};
ghost use Rattle.vm_iotlb.specs.declared.permissions.Permissions.{Permissions};
ghost use Rattle.vm_iotlb.specs.declared.permissions.Permissions.TheVariants.{Read};
ghost use Rattle.vm_memory.specs.Layout.{left_at, held-same};
ghost use Rattle.vm_memory.specs.Memory.{Memory, circular, is_mapped, location, memory_of, physical_layout};
ghost use Rattle.vm_memory.specs.Memory.{places_from};
ghost use Rattle.vm_memory.specs.RangeAnswers.{CannotGive, Checks, ReadsRange};
ghost use Rattle.vm_memory.specs.declared.error.GuestMemoryError.{GuestMemoryError};
ghost use Rattle.vm_memory.specs.Slices.{AddsLongest, AreAllOf, GivesSlice, Joins, StayIn, slices_from};

use crate::backend::GuestMemoryBackend;
use crate::collection::GuestRegionCollection;
use crate::error::GuestMemoryError;
use crate::iommu_slices::IommuMemorySliceIterator;
use crate::region::GuestMemoryRegion;
use crate::slice_iterator::GuestMemoryBackendSliceIterator;
use crate::slices::GuestMemorySliceIterator;
use std::alloc::{AllocError, Global};
use vm_memory_core::{GuestAddress, HeldIn, HostBlocks, Permissions, VolatileSlice, Windows};

/// Windows of a range of guest memory, one after another: the unnamed type that vm-memory's `get_slices`
/// returns.
#[derive(Drop)]
pub enum GuestMemorySlices<'a, M: GuestMemoryBackend> {
    /// Windows of physical addresses.
    Backend(GuestMemoryBackendSliceIterator<'a, M>),
    /// Windows of I/O addresses.
    Iommu(IommuMemorySliceIterator<'a, M>),
}

impl<'a, M: GuestMemoryBackend> Iterator for GuestMemorySlices<'a, M> {
    ghost use Rattle.vm_memory.specs.MemorySlices.{slices_of};

    type Item = Result<VolatileSlice, GuestMemoryError>;

    ghost next_gives = { λ s r t. GivesSlice (slices_of s) r (slices_of t) };

    ghost remaining = { λ s. at_most (length (slices_of s).left) };

    #[inline(always)]
    fn next(&mut self) -> Option<Result<VolatileSlice, GuestMemoryError>> {
        match self {
            GuestMemorySlices::Backend(slices) => slices.next(),
            GuestMemorySlices::Iommu(slices) => slices.next(),
        }
    }
}

impl<'a, M: GuestMemoryBackend> GuestMemorySliceIterator for GuestMemorySlices<'a, M> {
    ghost use Rattle.vm_memory.specs.MemorySlices.{slices_of};

    ghost slices = { slices_of };

    ghost callable = { λ s. tt };

    ghost by_address = { λ s r t gives. gives };

    fn next_error(&self) -> Option<GuestMemoryError> {
        match self {
            GuestMemorySlices::Backend(slices) => slices.next_error(),
            GuestMemorySlices::Iommu(slices) => slices.next_error(),
        }
    }
}

/// Guest memory as a device uses it (vm-memory's `GuestMemory`). If addresses aren't translated, 0
/// follows the greatest; translated ones have to be mapped throughout. A call allocates only if a
/// translation fails or a list grows.
pub trait GuestMemory: HeldIn {
    ghost use Rattle.vm_memory.specs.MemorySlices.{slices_of};

    /// The type of the memory by physical addresses.
    type PhysicalMemory: GuestMemoryBackend;

    // the memory that a device sees over a host
    ghost memory: { Self → Host → Memory };

    // the greatest length of a window from an address on, for an access
    ghost longest: { Self → Host → Permissions → ℕ → ℕ };

    /// Whether each of the `count` addresses from `addr` on has a place, for an access (vm-memory's
    /// `GuestMemory::check_range`). AllocError only if they aren't mapped throughout.
    fn check_range<H: HostBlocks>(
        &self,
        alloc: Global,
        h: &H,
        addr: GuestAddress,
        count: usize,
        access: Permissions,
    ) -> Result<bool, AllocError>
        ensures { Checks (memory self.now (H.host h.now)) access addr.0 count result };

    /// The windows of the `count` addresses from `addr` on, for an access (vm-memory's
    /// `GuestMemory::get_slices`). IommuError of CannotResolve, or OutOfMemory, only if they aren't
    /// mapped throughout.
    fn get_slices<'a, H: HostBlocks>(
        &'a self,
        alloc: Global,
        h: &'a H,
        addr: GuestAddress,
        count: usize,
        access: Permissions,
    ) -> Result<GuestMemorySlices<'a, Self::PhysicalMemory>, GuestMemoryError>
        ensures slices { IfOk result (λ s. slices_of s
            ≡ slices_from (location (memory self.now (H.host h.now)) access)
            (longest self.now (H.host h.now) access) addr.0 count) }
        ensures joined { IfOk result (λ s. (items : List (Result Window GuestMemoryError))
            → Drains (λ s r t. GivesSlice (slices_of s) r (slices_of t)) s items
            → AreAllOf (slices_from (location (memory self.now (H.host h.now)) access)
            (longest self.now (H.host h.now) access) addr.0 count) items) }
        ensures mapped { IfOk result
            (λ s. is_mapped (memory self.now (H.host h.now)) access addr.0 count ≡ true) }
        ensures refused { IfErr result (CannotGive (memory self.now (H.host h.now)) access addr.0 count) };

    /// The memory by physical addresses, if a device uses these (vm-memory's
    /// `GuestMemory::physical_memory`).
    fn physical_memory(&self) -> Option<&Self::PhysicalMemory>
        ensures { (h : Host)
            → option_map (λ m. Self.PhysicalMemory.layout m.now) result
            ≡ physical_layout (memory self.now h) };

    /// Fills a buffer with the bytes from an address on. False if one of the addresses has no place.
    /// AllocError only if they aren't mapped throughout.
    fn read_range<H: HostBlocks>(
        &self,
        alloc: Global,
        h: &H,
        addr: GuestAddress,
        buffer: &mut [u8],
    ) -> Result<bool, AllocError>
        requires { Self.IsHeld self.now (H.host h.now) }
        ensures found { Checks (memory self.now (H.host h.now)) Read addr.0 (length buffer.old) result }
        ensures bytes { ReadsRange (memory self.now (H.host h.now)) addr.0 (length buffer.old)
            buffer.new result };

    /// Adds the windows of the `count` addresses from `addr` on, for an access. False if one of them has
    /// no place. AllocError only if they aren't mapped throughout, or if the list has no room left.
    fn push_windows<H: HostBlocks>(
        &self,
        alloc: Global,
        h: &H,
        addr: GuestAddress,
        count: usize,
        access: Permissions,
        windows: &mut Windows,
    ) -> Result<bool, AllocError>
        ensures found { let found = places_from (memory self.now (H.host h.now)) access addr.0 count in
            Joins windows.old.items windows.new.items found result }
        ensures longest { AddsLongest (longest self.now (H.host h.now) access) (circular addr.0 count)
            windows.old.items windows.new.items }
        ensures held { Self.IsHeld self.now (H.host h.now)
            → StayIn (lengths (H.host h.now)) windows.old.items windows.new.items }
        ensures lacking { OnErr result
            ((is_mapped (memory self.now (H.host h.now)) access addr.0 count ≡ false)
            ⊎ (windows.old.capacity ≤ length windows.new.items)) };

    // the memory over another host differs in its host alone
    ghost over: { (m : Self) (h g : Host) → memory m g ≡ record (memory m h) { host = g } };

    // the longest window of addresses that aren't translated ends with its region
    ghost by_layout: { (m : Self) (h : Host) (access : Permissions) (a : ℕ) → (memory m h).translates ≡ false
        → longest m h access a ≡ left_at (memory m h).layout a };

    // a host of the same shape also has all that a memory refers to
    ghost by_shape: { (m : Self) (h g : Host) → shape g ≡ shape h → Self.IsHeld m h → Self.IsHeld m g };
}

impl<R: GuestMemoryRegion> GuestMemory for GuestRegionCollection<R> {
    type PhysicalMemory = GuestRegionCollection<R>;

    ghost memory = { λ m h. memory_of h m };

    ghost longest = { λ m h access a. left_at m a };

    ghost over = { λ m h g. refl };

    ghost by_layout = { λ m h access a off. refl };

    ghost by_shape = { λ m h g same held. held-same m h g same held };

    #[inline]
    fn check_range<H: HostBlocks>(
        &self,
        _alloc: Global,
        _h: &H,
        addr: GuestAddress,
        count: usize,
        _access: Permissions,
    ) -> Result<bool, AllocError> {
        Ok(self.has_range(addr, count))
    }

    fn get_slices<'a, H: HostBlocks>(
        &'a self,
        _alloc: Global,
        _h: &'a H,
        addr: GuestAddress,
        count: usize,
        _access: Permissions,
    ) -> Result<GuestMemorySlices<'a, GuestRegionCollection<R>>, GuestMemoryError> {
        let slices = GuestMemoryBackendSliceIterator::new(self, addr, count);
        Ok(GuestMemorySlices::Backend(slices))
    }

    fn physical_memory(&self) -> Option<&GuestRegionCollection<R>> {
        Some(self)
    }

    #[inline(always)]
    fn read_range<H: HostBlocks>(
        &self,
        _alloc: Global,
        h: &H,
        addr: GuestAddress,
        buffer: &mut [u8],
    ) -> Result<bool, AllocError> {
        let asked = buffer.len();
        let completed = self.read_some(h, buffer, addr.0);
        Ok(completed == asked)
    }

    #[inline(always)]
    fn push_windows<H: HostBlocks>(
        &self,
        _alloc: Global,
        _h: &H,
        addr: GuestAddress,
        count: usize,
        _access: Permissions,
        windows: &mut Windows,
    ) -> Result<bool, AllocError> {
        self.push_physical(addr, count, windows)
    }
}
