//! Host memory of any kind, as queues and devices use it.

ghost use Rattle.std.specs.Prelude.{◌≡◌, ◌↔◌, ℕ, ◌<◌, ◌≤◌, IfOk, IsTrue, List, length, map, option_map};
ghost use Rattle.std.specs.Prelude.{slice_get};
ghost use Rattle.vm_memory_core.specs.Host.{Host, lengths, shape};
ghost use Rattle.vm_memory_core.specs.Volatile.{moved, read_answer};
ghost use Rattle.vm_memory_core.specs.Window.{AllLieIn, LiesIn, Stores, byte_in, places, places_of};

use crate::copy::put_at;
use crate::host::HostMemory;
use crate::volatile::ReadVolatile;
use crate::window::VolatileSlice;
use std::alloc::{AllocError, Global};
use vm_bitmaps::NewBitmap;
use vm_iotlb::Iotlb;

/// Blocks of bytes with their dirty pages, and tables and sets of dirty I/O pages for devices behind an
/// IOMMU. `HostMemory` implements it.
pub trait HostBlocks {
    // the memory's blocks, tables and sets of I/O pages
    ghost host: { Self → Host };

    /// The number of bytes of a block. None if there is no such block.
    fn block_len(&self, block: usize) -> Option<usize>
        ensures { result ≡ option_map (λ b. length b.bytes) (slice_get (host self.now).blocks block) };

    /// The bytes of a window.
    fn bytes(&self, window: VolatileSlice) -> &[u8]
        requires { LiesIn (lengths (host self.now)) window }
        ensures bytes { result.now ≡ map (byte_in (host self.now)) (places_of window) }
        ensures len { length result.now ≡ window.len };

    /// Writes bytes at the first places of a window, and marks their pages.
    fn write(&mut self, window: VolatileSlice, bytes: &[u8])
        requires lies { LiesIn (lengths (host self.old)) window }
        requires fits { length bytes.now ≤ window.len }
        ensures stored { Stores (host self.old) (host self.new) (places_of window) bytes.now }
        ensures shape { shape (host self.new) ≡ shape (host self.old) };

    /// Reads bytes from `source` to the first places of a window, marks their pages, and returns their
    /// number. An error, which is the source's, changes nothing.
    fn read_volatile_from<S: ReadVolatile>(
        &mut self,
        window: VolatileSlice,
        source: &mut S,
    ) -> Result<usize, S::Error>
        requires { LiesIn (lengths (host self.old)) window }
        ensures reads { (part : List ℕ)
            × Stores (host self.old) (host self.new) (places_of window) part
            × (length part ≡ moved result)
            × (length part ≤ window.len)
            × S.gives source.old (map (byte_in (host self.old)) (places_of window)) (read_answer result part)
            source.new }
        ensures shape { shape (host self.new) ≡ shape (host self.old) };

    /// The table of an IOMMU with this number. None if there is none.
    fn table(&self, table: usize) -> Option<&Iotlb>
        ensures { option_map (λ t. t.now) result ≡ slice_get (host self.now).tables table };

    /// Whether there is a set of dirty I/O pages with this number.
    fn has_io_bitmap(&self, set: usize) -> bool
        ensures { IsTrue result ↔ (set < length (host self.now).io_marks) };

    /// Whether there is a table with this number.
    final fn has_table(&self, table: usize) -> bool
        ensures { IsTrue result ↔ (table < length (host self.now).tables) }
    {
        match self.table(table) {
            Some(_) => true,
            None => false,
        }
    }

    /// Whether this memory has all of a window.
    final fn has(&self, window: &VolatileSlice) -> bool
        ensures { IsTrue result ↔ LiesIn (lengths (host self.now)) window.now }
    {
        match self.block_len(window.block()) {
            Some(size) => {
                window.block_offset() <= size && window.len() <= size - window.block_offset()
            }
            None => false,
        }
    }

    /// Writes bytes at the first places of the joined windows, and marks their pages.
    #[tactic(auto, unfolding(crate::specs::Window::AllLieIn))]
    #[inline(always)]
    final fn write_windows(&mut self, windows: &[VolatileSlice], bytes: &[u8])
        requires lie { AllLieIn (lengths (host self.old)) windows.now }
        requires fits { length bytes.now ≤ length (places windows.now) }
        ensures stored { Stores (host self.old) (host self.new) (places windows.now) bytes.now }
        ensures shape { shape (host self.new) ≡ shape (host self.old) }
    {
        let mut done = 0;
        for window in windows {
            let count = window.len().min(bytes.len() - done);
            self.write(*window, &bytes[done..][..count]);
            done += count;
        }
    }

    /// Reads the bytes of the joined windows into a buffer, which they fill.
    #[tactic(auto, unfolding(crate::specs::Window::AllLieIn))]
    final fn read_windows(&self, windows: &[VolatileSlice], buffer: &mut [u8])
        requires lie { AllLieIn (lengths (host self.now)) windows.now }
        requires fits { length buffer.old ≡ length (places windows.now) }
        ensures { buffer.new ≡ map (byte_in (host self.now)) (places windows.now) }
    {
        let mut done = 0;
        for window in windows {
            put_at(buffer, done, self.bytes(*window));
            done += window.len();
        }
    }

    /// The bytes of the joined windows. `capacity` is about their number. AllocError if an allocation
    /// fails.
    #[tactic(auto, unfolding(crate::specs::Window::AllLieIn))]
    #[inline(always)]
    final fn fetch_windows(
        &self,
        alloc: Global,
        windows: &[VolatileSlice],
        capacity: usize,
    ) -> Result<Vec<u8>, AllocError>
        requires { AllLieIn (lengths (host self.now)) windows.now }
        ensures { IfOk result (λ v. v.items ≡ map (byte_in (host self.now)) (places windows.now)) }
    {
        let mut bytes = Vec::with_capacity(alloc, capacity)?;
        for window in windows {
            bytes.extend_from_slice(self.bytes(*window))?;
        }
        Ok(bytes)
    }
}

/// `HostMemory` owns its blocks, and no call moves them out.
impl<B: NewBitmap> HostBlocks for HostMemory<B> {
    ghost host = { λ h. h };

    fn block_len(&self, block: usize) -> Option<usize> {
        HostMemory::block_len(self, block)
    }

    fn bytes(&self, window: VolatileSlice) -> &[u8] {
        HostMemory::bytes(self, window)
    }

    #[inline(always)]
    fn write(&mut self, window: VolatileSlice, bytes: &[u8]) {
        HostMemory::write(self, window, bytes);
    }

    fn read_volatile_from<S: ReadVolatile>(
        &mut self,
        window: VolatileSlice,
        source: &mut S,
    ) -> Result<usize, S::Error> {
        HostMemory::read_volatile_from(self, window, source)
    }

    fn table(&self, table: usize) -> Option<&Iotlb> {
        HostMemory::table(self, table)
    }

    fn has_io_bitmap(&self, set: usize) -> bool {
        match self.io_bitmap(set) {
            Some(_) => true,
            None => false,
        }
    }
}
