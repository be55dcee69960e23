//! Whether a host has the blocks of a layout.

ghost use Rattle.std.specs.Prelude.{◌≡◌, ◌<◌, IsTrue, ◌↔◌, length, slice_index_or};
ghost use Rattle.vm_memory_core.specs.Host.{lengths};
ghost use Rattle.vm_memory.specs.Layout.{AreHeld, IsLayout};

use crate::collection::GuestRegionCollection;
use crate::region::GuestMemoryRegion;
use vm_memory_core::{HeldIn, HostBlocks, MemoryRegionAddress};

impl<R: GuestMemoryRegion> HeldIn for GuestRegionCollection<R> {
    ghost IsHeld = { λ m h. AreHeld (lengths h) m };

    ghost IsSound = { IsLayout };

    fn is_held<H: HostBlocks>(&self, h: &H) -> bool {
        for at in 0..self.count() {
            if !has_block(h, self.region(at)) {
                return false;
            }
        }
        true
    }
}

// Whether a host has the block of a region, with its length.
fn has_block<H: HostBlocks, R: GuestMemoryRegion>(h: &H, region: &R) -> bool
    ensures { IsTrue result ↔ (((R.region region.now).block < length (lengths (H.host h.now)))
        × (slice_index_or (lengths (H.host h.now)) (R.region region.now).block 0
        ≡ (R.region region.now).size)) }
{
    let size = region.len();
    match region.get_host_address(MemoryRegionAddress(0)) {
        Ok(first) => match h.block_len(first.block) {
            Some(len) => len as u64 == size,
            None => false,
        },
        Err(_) => false,
    }
}
