//! Windows of a range of physical addresses (vm-memory's `GuestMemoryBackendSliceIterator`).

ghost use Rattle.std.specs.Prelude.{◌≡◌, ◌<◌, ℕ, List, length, min, None, IfSome};
ghost use Rattle.std.specs.Iterator.{at_most};
ghost use Rattle.vm_memory_core.specs.Window.{LiesIn};
ghost use Rattle.vm_memory.specs.Layout.{left_at, place, AreHeld};
ghost use Rattle.vm_memory.specs.Memory.{circular};
ghost use Rattle.vm_memory.specs.Slices.{slices_in, GivesSlice, IsWindowAt};

use crate::backend::GuestMemoryBackend;
use crate::error::GuestMemoryError;
use crate::region::GuestMemoryRegion;
use crate::slices::GuestMemorySliceIterator;
use std::marker::Model;
use vm_memory_core::{GuestAddress, MemoryRegionAddress, VolatileSlice};

/// The windows of consecutive physical addresses; 0 follows the greatest (vm-memory's
/// `GuestMemoryBackendSliceIterator`). The last item is an error if an address has no place:
/// InvalidGuestAddress.
#[derive(Drop)]
pub struct GuestMemoryBackendSliceIterator<'a, M: GuestMemoryBackend> {
    memory: &'a M,
    addr: u64,
    count: usize,
}

impl<'a, M: GuestMemoryBackend> Model for GuestMemoryBackendSliceIterator<'a, M> {
    ghost use Rattle.vm_memory.specs.Memory.{circular};
    ghost use Rattle.vm_memory.specs.Slices.{PhysicalSlices};

    ghost Value = { PhysicalSlices };

    ghost view = { λ i. record { layout = M.layout i.memory.now; left = circular i.addr i.count } };
}

impl<'a, M: GuestMemoryBackend> GuestMemoryBackendSliceIterator<'a, M> {
    // The windows of the `count` addresses from `addr` on.
    pub(crate) fn new(
        memory: &'a M,
        addr: GuestAddress,
        count: usize,
    ) -> GuestMemoryBackendSliceIterator<'a, M>
        ensures { result ≡ record { layout = M.layout memory.now; left = circular addr.0 count } }
    {
        GuestMemoryBackendSliceIterator {
            memory,
            addr: addr.0,
            count,
        }
    }
}

impl<'a, M: GuestMemoryBackend> Iterator for GuestMemoryBackendSliceIterator<'a, M> {
    type Item = Result<VolatileSlice, GuestMemoryError>;

    ghost next_gives = { λ s r t. (t.layout ≡ s.layout) × GivesSlice (slices_in s) r (slices_in t) };

    ghost remaining = { λ s. at_most (length s.left) };

    #[inline(always)]
    fn next(&mut self) -> Option<Result<VolatileSlice, GuestMemoryError>> {
        if self.count == 0 {
            return None;
        }
        let addr = self.addr;
        match window_at(self.memory, addr, self.count) {
            Some(window) => {
                self.addr = addr.wrapping_add(window.len() as u64);
                self.count -= window.len();
                Some(Ok(window))
            }
            None => {
                self.count = 0;
                Some(Err(GuestMemoryError::InvalidGuestAddress(GuestAddress(addr))))
            }
        }
    }
}

impl<'a, M: GuestMemoryBackend> GuestMemorySliceIterator
    for GuestMemoryBackendSliceIterator<'a, M> {
    ghost slices = { slices_in };

    ghost callable = { λ s. tt };

    ghost by_address = { λ s r t gives. gives.1 };

    fn next_error(&self) -> Option<GuestMemoryError> {
        if self.count == 0 {
            return None;
        }
        match window_at(self.memory, self.addr, self.count) {
            Some(_) => None,
            None => Some(GuestMemoryError::InvalidGuestAddress(GuestAddress(self.addr))),
        }
    }
}

// The longest window from an address on, of at most `most` bytes. None if the address has no place.
#[inline(always)]
pub(crate) fn window_at<M: GuestMemoryBackend>(
    memory: &M,
    addr: u64,
    most: usize,
) -> Option<VolatileSlice>
    requires { 0 < most }
    ensures none { result ≡ None → place (M.layout memory.now) addr ≡ None }
    ensures some { IfSome result (IsWindowAt (place (M.layout memory.now)) addr most) }
    ensures longest { IfSome result (λ w. w.len ≡ min most (left_at (M.layout memory.now) addr)) }
    ensures held { (lengths : List ℕ)
        → AreHeld lengths (M.layout memory.now)
        → IfSome result (LiesIn lengths) }
{
    match memory.find_region(GuestAddress(addr)) {
        Some(region) => {
            let offset = addr - region.start_addr().0;
            let len = (region.len() - offset).min(most as u64) as usize;
            match region.get_slice(MemoryRegionAddress(offset), len) {
                Ok(window) => Some(window),
                Err(_) => None,
            }
        }
        None => None,
    }
}
