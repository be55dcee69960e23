//! Memory as numbered blocks, each with its dirty pages, and the tables of IOMMUs with their dirty I/O
//! pages.

ghost use Rattle.std.specs.Prelude.{[], IfOk, IfSome, IsSome, IsTrue, None, OnErr, false, ℕ, ◌≡◌, ◌↔◌, ◌<◌};
ghost use Rattle.std.specs.Prelude.{◌≤◌, ◌*◌};
ghost use Rattle.std.specs.Prelude.{List, length, map, replicate, slice_get, option_map};
ghost use Rattle.std.specs.Borrow.{sem};
ghost use Rattle.vm_memory_core.specs.Host.{byte_at, lengths, shape, with_block, with_io_pages, with_table};
ghost use Rattle.vm_memory_core.specs.Parts.{spelled_all};
ghost use Rattle.vm_memory_core.specs.Putting.{copied_in_block, io_marked};
ghost use Rattle.vm_memory_core.specs.Volatile.{moved, read_answer};
ghost use Rattle.vm_memory_core.specs.Window.{places_of, LiesIn, Stores, byte_in};

use crate::block::{Block, cloned_blocks, copy_across};
use crate::io_pages::{IoPages, cloned_sets, mark_pages};
use crate::volatile::{ReadVolatile, moved};
use crate::window::VolatileSlice;
use std::alloc::{AllocError, Global};
use std::fmt;
use std::marker::Model;
use vm_bitmaps::{NewBitmap, PageBitmap};
use vm_iotlb::Iotlb;
use vm_values::ByteValued;

/// The memory that guests and devices share: blocks, each with a bitmap of its dirty pages. It has tables and
/// sets of dirty I/O pages for devices behind an IOMMU. Each of the three is numbered from 0.
#[derive(Drop)]
pub struct HostMemory<B: NewBitmap> {
    alloc: Global,
    pub(crate) blocks: Vec<Block<B>>,
    tables: Vec<Iotlb>,
    io_pages: Vec<IoPages<B>>,
}

impl<B: NewBitmap> Model for HostMemory<B> {
    ghost use Rattle.std.specs.Prelude.{[]};
    ghost use Rattle.vm_memory_core.specs.Host.{Host};

    ghost Value = { Host };

    ghost view = { λ h.
        record { blocks = h.blocks.items; tables = h.tables.items; io_marks = h.io_pages.items } };
}

impl<B: NewBitmap> HostMemory<B> {
    ghost use Rattle.vm_memory_core.specs.Lending.{LendsIoPages, LendsTable};

    /// An empty memory.
    pub fn new(alloc: Global) -> HostMemory<B>
        ensures { result ≡ record { blocks = []; tables = []; io_marks = [] } }
    {
        HostMemory {
            alloc,
            blocks: Vec::new(alloc),
            tables: Vec::new(alloc),
            io_pages: Vec::new(alloc),
        }
    }

    /// Adds a block of `len` bytes, all zero, with no page marked, and returns its number. AllocError if an
    /// allocation fails: nothing changes.
    pub fn new_block(&mut self, len: usize) -> Result<usize, AllocError>
        requires { 0 < len }
        ensures number { IfOk result (λ b. b ≡ length self.old.blocks) }
        ensures ok { IfOk result (λ _. self.new ≡ with_block self.old
            (record { bytes = replicate len 0; marks = replicate (B.count len) false })) }
        ensures err { OnErr result (self.new ≡ self.old) }
    {
        let number = self.blocks.len();
        let bytes = vec![in self.alloc; 0u8; len]?;
        let bitmap = B::with_len(self.alloc, len)?;
        self.blocks.push(Block { bytes, bitmap })?;
        Ok(number)
    }

    /// Adds a table without mappings, and returns its number. AllocError if an allocation fails: nothing
    /// changes.
    pub fn new_table(&mut self) -> Result<usize, AllocError>
        ensures number { IfOk result (λ t. t ≡ length self.old.tables) }
        ensures ok { IfOk result (λ _. self.new ≡ with_table self.old []) }
        ensures err { OnErr result (self.new ≡ self.old) }
    {
        let number = self.tables.len();
        self.tables.push(Iotlb::new(self.alloc))?;
        Ok(number)
    }

    /// Adds a set of I/O pages for the addresses below `byte_size`, with no page marked, and returns its
    /// number. AllocError if an allocation fails: nothing changes.
    pub fn new_io_bitmap(&mut self, byte_size: usize) -> Result<usize, AllocError>
        ensures number { IfOk result (λ i. i ≡ length self.old.io_marks) }
        ensures ok { IfOk result
            (λ _. self.new ≡ with_io_pages self.old (replicate (B.count byte_size) false)) }
        ensures err { OnErr result (self.new ≡ self.old) }
    {
        let number = self.io_pages.len();
        let pages = IoPages::with_len(self.alloc, byte_size)?;
        self.io_pages.push(pages)?;
        Ok(number)
    }

    /// The table with this number. None if there is none.
    pub fn table(&self, table: usize) -> Option<&Iotlb>
        ensures { option_map (λ t. t.now) result ≡ slice_get self.now.tables table }
    {
        self.tables.get(table)
    }

    /// The table with this number, mutable. None if there is none.
    pub fn table_mut(&mut self, table: usize) -> Option<&mut Iotlb>
        ensures* writes_back { sem 𝓛 (LendsTable B.row B.NewBitmap self.entry table result) }
        ensures value { option_map (λ t. t.now) result ≡ slice_get self.old.tables table }
    {
        self.tables.get_mut(table)
    }

    /// The set of dirty I/O pages with this number, of 4096 addresses each. None if there is none.
    pub fn io_bitmap(&self, set: usize) -> Option<&IoPages<B>>
        ensures { option_map (λ p. p.now) result ≡ slice_get self.now.io_marks set }
    {
        self.io_pages.get(set)
    }

    /// The set of dirty I/O pages with this number, mutable. None if there is none.
    pub fn io_bitmap_mut(&mut self, set: usize) -> Option<&mut IoPages<B>>
        ensures* writes_back { sem 𝓛 (LendsIoPages B.row B.NewBitmap self.entry set result) }
        ensures value { option_map (λ p. p.now) result ≡ slice_get self.old.io_marks set }
    {
        self.io_pages.get_mut(set)
    }

    /// The number of blocks.
    pub fn block_count(&self) -> usize
        ensures { result ≡ length self.now.blocks }
    {
        self.blocks.len()
    }

    /// The number of bytes of a block, which is never 0. None if there is no such block.
    pub fn block_len(&self, block: usize) -> Option<usize>
        ensures len { result ≡ option_map (λ b. length b.bytes) (slice_get self.now.blocks block) }
        ensures some { IfSome result (λ len. 0 < len) }
    {
        match self.blocks.get(block) {
            Some(block) => Some(block.bytes.len()),
            None => None,
        }
    }

    /// The byte at an offset of a block. None if there is none.
    pub fn byte_at(&self, block: usize, offset: usize) -> Option<u8>
        ensures { result ≡ byte_at self.now (record { block = block; offset = offset; io = None }) }
    {
        self.blocks.get(block)?.bytes.get(offset).copied()
    }

    /// The bytes of a window.
    pub fn bytes(&self, window: VolatileSlice) -> &[u8]
        requires { LiesIn (lengths self.now) window }
        ensures bytes { result.now ≡ map (byte_in self.now) (places_of window) }
        ensures len { length result.now ≡ window.len }
    {
        self.blocks[window.block()].bytes(window.block_offset(), window.len())
    }

    /// Writes bytes at the first places of a window, and marks their pages.
    #[inline(always)]
    pub fn write(&mut self, window: VolatileSlice, bytes: &[u8])
        requires lies { LiesIn (lengths self.old) window }
        requires fits { length bytes.now ≤ window.len }
        ensures stored { Stores self.old self.new (places_of window) bytes.now }
        ensures shape { shape self.new ≡ shape self.old }
    {
        let block = &mut self.blocks[window.block()];
        block.write(window.block_offset(), bytes, window.marks_its_block());
        self.mark_io(window, bytes.len());
    }

    /// Reads bytes from `source` to the first places of a window, marks their pages, and returns their number
    /// (vm-memory's `VolatileSlice::read_volatile_from`). An error, which is the source's, changes nothing.
    pub fn read_volatile_from<S: ReadVolatile>(
        &mut self,
        window: VolatileSlice,
        source: &mut S,
    ) -> Result<usize, S::Error>
        requires { LiesIn (lengths self.old) window }
        ensures reads { (part : List ℕ)
            × Stores self.old self.new (places_of window) part
            × (length part ≡ moved result)
            × (length part ≤ window.len)
            × S.gives source.old (map (byte_in self.old) (places_of window)) (read_answer result part)
            source.new }
        ensures shape { shape self.new ≡ shape self.old }
    {
        let block = &mut self.blocks[window.block()];
        let mark = window.marks_its_block();
        let answer = block.read_volatile_from(window.block_offset(), window.len(), source, mark);
        self.mark_io(window, moved(&answer));
        answer
    }

    // Marks the I/O pages of the first `count` bytes of a window, if the window marks I/O pages.
    #[inline]
    fn mark_io(&mut self, window: VolatileSlice, count: usize)
        ensures marked { self.new ≡ io_marked self.old window count }
        ensures from { IfSome window.io (λ m. m.from ≤ window.offset) }
    {
        let Some(marks) = window.io() else {
            return;
        };
        mark_pages(&mut self.io_pages, marks, window.block_offset(), count);
    }

    // Writes values at the first places of a window, and marks their pages.
    pub(crate) fn write_values<T: ByteValued>(&mut self, window: VolatileSlice, values: &[T])
        requires lies { LiesIn (lengths self.old) window }
        requires fits { length values.now * T.SIZE ≤ window.len }
        ensures stored { Stores self.old self.new (places_of window) (spelled_all T.fields values.now) }
        ensures shape { shape self.new ≡ shape self.old }
    {
        let block = &mut self.blocks[window.block()];
        block.write_values(window.block_offset(), values, window.marks_its_block());
        self.mark_io(window, values.len() * T::SIZE);
    }

    // Copies a window to one of the same length as `copy_window` does, but marks no I/O pages.
    fn copy_in_blocks(&mut self, source: VolatileSlice, dest: VolatileSlice)
        requires source { LiesIn (lengths self.old) source }
        requires dest { LiesIn (lengths self.old) dest }
        requires len { source.len ≡ dest.len }
        ensures { self.new ≡ copied_in_block self.old source dest }
    {
        if source.block() == dest.block() {
            let block = &mut self.blocks[dest.block()];
            block.copy_within(
                source.block_offset(),
                dest.block_offset(),
                dest.len(),
                dest.marks_its_block(),
            );
        } else {
            copy_across(&mut self.blocks, source, dest);
        }
    }

    // Copies a window to one of the same length, and marks the pages there. If the two overlap, it copies
    // the bytes from before.
    pub(crate) fn copy_window(&mut self, source: VolatileSlice, dest: VolatileSlice)
        requires source { LiesIn (lengths self.old) source }
        requires dest { LiesIn (lengths self.old) dest }
        requires len { source.len ≡ dest.len }
        ensures stored { Stores self.old self.new (places_of dest)
            (map (byte_in self.old) (places_of source)) }
        ensures shape { shape self.new ≡ shape self.old }
    {
        self.copy_in_blocks(source, dest);
        self.mark_io(dest, dest.len());
    }

    /// The dirty pages of a block, of 4096 bytes each. None if there is no such block.
    pub fn bitmap(&self, block: usize) -> Option<&B>
        ensures size { IfSome result (λ b. B.page_size b.now ≡ 4096) }
        ensures base { IfSome result (λ b. B.base b.now ≡ 0) }
        ensures marks { option_map (λ b. B.marks b.now) result
            ≡ option_map (λ b. b.marks) (slice_get self.now.blocks block) }
    {
        match self.blocks.get(block) {
            Some(block) => Some(&block.bitmap),
            None => None,
        }
    }

    /// The bytes of a block, and its dirty pages. None if there is no such block.
    pub fn bytes_and_bitmap(&self, block: usize) -> Option<(&[u8], &B)>
        ensures bytes { option_map (λ p. p.0.now) result
            ≡ option_map (λ b. b.bytes) (slice_get self.now.blocks block) }
        ensures marks { option_map (λ p. B.marks p.1.now) result
            ≡ option_map (λ b. b.marks) (slice_get self.now.blocks block) }
        ensures count { IfSome result (λ p. length (B.marks p.1.now) ≡ B.count (length p.0.now)) }
    {
        match self.blocks.get(block) {
            Some(block) => Some((&block.bytes, &block.bitmap)),
            None => None,
        }
    }

    /// Whether this memory has all of a window.
    pub fn has(&self, window: &VolatileSlice) -> bool
        ensures { IsTrue result ↔ LiesIn (lengths self.now) window.now }
    {
        self.window(window.block(), window.block_offset(), window.len())
            .is_some()
    }

    /// The window of `len` bytes of a block from `offset` on. None if the block doesn't have all of it.
    pub fn window(&self, block: usize, offset: usize, len: usize) -> Option<VolatileSlice>
        ensures value { IfSome result
            (λ w. w ≡ record { block = block; offset = offset; len = len; io = None }) }
        ensures found { IsSome result ↔ LiesIn (lengths self.now)
            (record { block = block; offset = offset; len = len; io = None }) }
    {
        let size = self.block_len(block)?;
        if offset <= size && len <= size - offset {
            Some(VolatileSlice::new(block, offset, len))
        } else {
            None
        }
    }
}

/// The numbers of blocks, tables and sets of I/O pages, without their bytes.
impl<B: NewBitmap> fmt::Debug for HostMemory<B> {
    fn fmt<W: fmt::Write>(&self, f: &mut fmt::Formatter<W>) -> fmt::Result {
        f.debug_struct("HostMemory")
            .field("blocks", &self.blocks.len())
            .field("tables", &self.tables.len())
            .field("io_pages", &self.io_pages.len())
            .finish_non_exhaustive()
    }
}

// A copy of the tables.
fn cloned_tables(alloc: Global, tables: &[Iotlb]) -> Result<Vec<Iotlb>, AllocError>
    ensures { IfOk result (λ copies. copies.items ≡ tables.now) }
{
    let mut copies = Vec::with_capacity(alloc, tables.len())?;
    for table in tables {
        copies.push(table.try_clone()?)?;
    }
    Ok(copies)
}

impl HostMemory<PageBitmap> {
    ghost use Rattle.vm_memory_core.specs.Host.{changed_at, unmarked, with_blocks};

    /// A copy of the memory: blocks with their bytes and marks, tables, and sets of I/O pages. AllocError if
    /// an allocation fails.
    pub fn try_clone(&self) -> Result<HostMemory<PageBitmap>, AllocError>
        ensures { IfOk result (λ h. h ≡ self.now) }
    {
        Ok(HostMemory {
            alloc: self.alloc,
            blocks: cloned_blocks(self.alloc, &self.blocks)?,
            tables: cloned_tables(self.alloc, &self.tables)?,
            io_pages: cloned_sets(self.alloc, &self.io_pages)?,
        })
    }

    /// Clears the marks of a block. If there is no such block, returns false and changes nothing.
    pub fn reset_bitmap(&mut self, block: usize) -> bool
        ensures found { IsTrue result ↔ (block < length self.old.blocks) }
        ensures cleared { self.new ≡ with_blocks self.old (changed_at self.old.blocks block unmarked) }
        ensures shape { shape self.new ≡ shape self.old }
    {
        if block >= self.blocks.len() {
            return false;
        }
        let bitmap = &mut self.blocks[block].bitmap;
        let pages = bitmap.len();
        bitmap.reset();
        prove_eq!(bitmap.len(), pages);
        true
    }
}
