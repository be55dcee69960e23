//! A block of the host that a region maps (vm-memory's `MmapRegion`).

ghost use Rattle.std.specs.Prelude.{◌≡◌, ◌<◌, ◌^◌};
ghost use Rattle.vm_memory.specs.Making.{IsMapped, backing_at, backing_over};

use crate::error::MmapRegionError;
use std::alloc::Global;
use std::marker::Model;
use vm_memory_core::{HostBlocks, HostMemory, NewBitmap};

/// All bytes of a block of host memory, at least one (vm-memory's `MmapRegion`).
#[derive(Clone, Copy, Debug)]
pub struct MmapRegion {
    size: usize,
    block: usize,
}

impl Model for MmapRegion {
    ghost use Rattle.std.specs.Prelude.{◌<◌, ◌^◌};
    ghost use Rattle.vm_memory.specs.Layout.{Backing};

    ghost Value = { Backing };

    ghost view = { λ m. record { size = m.size; block = m.block } };

    ghost invariant = { λ m. (0 < m.size) × (m.size < 2 ^ 64) };

    ghost inverse = { λ m. record { size = m.size; block = m.block } };
}

impl MmapRegion {
    /// A new block of `size` zero bytes, without a mark. Mmap if the size is 0, OutOfMemory.
    pub fn new<B: NewBitmap>(
        _alloc: Global,
        h: &mut HostMemory<B>,
        size: usize,
    ) -> Result<MmapRegion, MmapRegionError>
        ensures { IsMapped B.count h.old h.new size result }
    {
        if size == 0 {
            return Err(MmapRegionError::Mmap);
        }
        match h.new_block(size) {
            Ok(block) => Ok(MmapRegion { size, block }),
            Err(_) => Err(MmapRegionError::OutOfMemory),
        }
    }

    /// An existing block of the host, None if it has none of this number.
    pub fn of_block<B: NewBitmap>(h: &HostMemory<B>, b: usize) -> Option<MmapRegion>
        ensures { result ≡ backing_at h.now b }
    {
        match h.block_len(b) {
            Some(size) => Some(MmapRegion { size, block: b }),
            None => None,
        }
    }

    /// An existing block of any kind of host, None if it has none of this number, or an empty one.
    pub fn over_block<H: HostBlocks>(h: &H, b: usize) -> Option<MmapRegion>
        ensures { result ≡ backing_over (H.host h.now) b }
    {
        match h.block_len(b) {
            Some(0) => None,
            Some(size) => Some(MmapRegion { size, block: b }),
            None => None,
        }
    }

    /// The number of its bytes, at least 1.
    pub fn size(&self) -> usize
        ensures size { result ≡ self.now.size }
        ensures not_empty { 0 < self.now.size }
        ensures fits { self.now.size < 2 ^ 64 }
    {
        self.size
    }

    /// The number of its block in the host.
    pub fn block(&self) -> usize
        ensures { result ≡ self.now.block }
    {
        self.block
    }
}
