//! One block of host memory, and copies from one block to another.

ghost use Rattle.std.specs.Prelude.{◌≡◌, ◌≢◌, ℕ, ◌+◌, ◌<◌, ◌≤◌, ◌^◌, ◌*◌, List, ◌++◌, IfOk, length, map};
ghost use Rattle.std.specs.Prelude.{take, drop};
ghost use Rattle.vm_memory_core.specs.Host.{Block, Host, with_blocks};
ghost use Rattle.vm_memory_core.specs.Parts.{spelled_all};
ghost use Rattle.vm_memory_core.specs.Putting.{copied_in_block, marked_if};
ghost use Rattle.vm_memory_core.specs.Volatile.{moved, read_answer};
ghost use Rattle.vm_memory_core.specs.Window.{LiesIn};

use crate::copy::{put_at, put_values};
use crate::volatile::{ReadVolatile, moved, read_to};
use crate::window::VolatileSlice;
use std::alloc::{AllocError, Global};
use std::marker::Model;
use vm_bitmaps::{NewBitmap, PageBitmap};
use vm_values::ByteValued;

// A block: its bytes, and its dirty pages.
#[derive(Drop)]
pub(crate) struct Block<B: NewBitmap> {
    pub(crate) bytes: Vec<u8>,
    pub(crate) bitmap: B,
}

impl<B: NewBitmap> Model for Block<B> {
    ghost use Rattle.std.specs.Prelude.{◌≡◌, ◌<◌, length};
    ghost use Rattle.vm_memory_core.specs.Host.{Block};

    ghost Value = { Block };

    ghost view = { λ b. record { bytes = b.bytes.items; marks = B.marks b.bitmap } };

    ghost invariant = { λ b. (B.page_size b.bitmap ≡ 4096) × (B.base b.bitmap ≡ 0)
        × (length (B.marks b.bitmap) ≡ B.count (length b.bytes.items)) × (0 < length b.bytes.items) };
}

impl<B: NewBitmap> Block<B> {
    // Its `len` bytes from `offset` on.
    pub(crate) fn bytes(&self, offset: usize, len: usize) -> &[u8]
        requires { offset + len ≤ length self.now.bytes }
        ensures { result.now ≡ take len (drop offset self.now.bytes) }
    {
        &self.bytes[offset..][..len]
    }

    // Writes values, one after another, and marks their pages if `mark`.
    pub(crate) fn write_values<T: ByteValued>(&mut self, offset: usize, values: &[T], mark: bool)
        requires { offset + length values.now * T.SIZE ≤ length self.old.bytes }
        ensures stored { self.new.bytes ≡ take offset self.old.bytes ++ spelled_all T.fields values.now
            ++ drop (offset + length (spelled_all T.fields values.now)) self.old.bytes }
        ensures marked { self.new.marks
            ≡ marked_if mark self.old.marks offset (length (spelled_all T.fields values.now)) }
        ensures fits { offset + length (spelled_all T.fields values.now) < 2 ^ 64 }
        ensures count { length (spelled_all T.fields values.now) ≡ length values.now * T.SIZE }
    {
        put_values(&mut self.bytes, offset, values);
        if mark {
            self.bitmap.mark_dirty(offset, values.len() * T::SIZE);
        }
    }

    // Copies bytes from one offset to another, and marks the pages there if `mark`. If the two overlap, it
    // copies the bytes from before.
    pub(crate) fn copy_within(&mut self, from: usize, to: usize, len: usize, mark: bool)
        requires source { from + len ≤ length self.old.bytes }
        requires dest { to + len ≤ length self.old.bytes }
        ensures stored { self.new.bytes ≡ take to self.old.bytes ++ take len (drop from self.old.bytes)
            ++ drop (to + length (take len (drop from self.old.bytes))) self.old.bytes }
        ensures marked { self.new.marks
            ≡ marked_if mark self.old.marks to (length (take len (drop from self.old.bytes))) }
        ensures fits { to + length (take len (drop from self.old.bytes)) < 2 ^ 64 }
        ensures count { length (take len (drop from self.old.bytes)) ≡ len }
    {
        self.bytes.copy_within(from..from + len, to);
        if mark {
            self.bitmap.mark_dirty(to, len);
        }
    }

    // Sets bytes, and marks no page.
    pub(crate) fn set(&mut self, offset: usize, bytes: &[u8])
        requires { offset + length bytes.now ≤ length self.old.bytes }
        ensures { self.new ≡ record self.old {
          bytes = take offset self.old.bytes ++ bytes.now ++ drop (offset + length bytes.now) self.old.bytes;
        } }
    {
        put_at(&mut self.bytes, offset, bytes);
    }

    // Writes bytes, and marks their pages if `mark`.
    pub(crate) fn write(&mut self, offset: usize, bytes: &[u8], mark: bool)
        requires { offset + length bytes.now ≤ length self.old.bytes }
        ensures stored { self.new.bytes ≡ take offset self.old.bytes ++ bytes.now
            ++ drop (offset + length bytes.now) self.old.bytes }
        ensures marked { self.new.marks ≡ marked_if mark self.old.marks offset (length bytes.now) }
        ensures fits { offset + length bytes.now < 2 ^ 64 }
    {
        put_at(&mut self.bytes, offset, bytes);
        if mark {
            self.bitmap.mark_dirty(offset, bytes.len());
        }
    }

    // Reads from `source` to its `len` bytes from `offset` on, and marks the pages of those read if `mark`.
    pub(crate) fn read_volatile_from<S: ReadVolatile>(
        &mut self,
        offset: usize,
        len: usize,
        source: &mut S,
        mark: bool,
    ) -> Result<usize, S::Error>
        requires { offset + len ≤ length self.old.bytes }
        ensures reads { (part : List ℕ)
            × (self.new.bytes ≡ take offset self.old.bytes ++ part
            ++ drop (offset + length part) self.old.bytes)
            × (self.new.marks ≡ marked_if mark self.old.marks offset (length part))
            × (length part ≡ moved result)
            × (length part ≤ len)
            × S.gives source.old (take len (drop offset self.old.bytes)) (read_answer result part)
            source.new }
        ensures fits { offset + moved result < 2 ^ 64 }
    {
        let answer = read_to(&mut self.bytes, offset, len, source);
        if mark {
            self.bitmap.mark_dirty(offset, moved(&answer));
        }
        answer
    }
}

impl Block<PageBitmap> {
    // A copy of its bytes and marks.
    fn try_clone(&self) -> Result<Block<PageBitmap>, AllocError>
        ensures { IfOk result (λ b. b ≡ self.now) }
    {
        Ok(Block {
            bytes: Vec::from_slice(*self.bytes.allocator(), &self.bytes)?,
            bitmap: self.bitmap.try_clone()?,
        })
    }
}

// A copy of the blocks.
pub(crate) fn cloned_blocks(
    alloc: Global,
    blocks: &[Block<PageBitmap>],
) -> Result<Vec<Block<PageBitmap>>, AllocError>
    ensures { IfOk result (λ copies. copies.items ≡ blocks.now) }
{
    let mut copies = Vec::with_capacity(alloc, blocks.len())?;
    for block in blocks {
        copies.push(block.try_clone()?)?;
    }
    Ok(copies)
}

// Copies a window of one block to a window of the same length in another block. Marks the pages there unless
// that window marks I/O pages.
pub(crate) fn copy_across<B: NewBitmap>(
    blocks: &mut [Block<B>],
    source: VolatileSlice,
    dest: VolatileSlice,
)
    requires source { LiesIn (map (λ b. length b.bytes) blocks.old) source }
    requires dest { LiesIn (map (λ b. length b.bytes) blocks.old) dest }
    requires len { source.len ≡ dest.len }
    requires other { source.block ≢ dest.block }
    ensures { (h : Host) → with_blocks h blocks.new ≡ copied_in_block (with_blocks h blocks.old) source dest }
{
    if source.block() < dest.block() {
        let (low, high) = blocks.split_at_mut(dest.block());
        let bytes = low[source.block()].bytes(source.block_offset(), source.len());
        high[0].write(dest.block_offset(), bytes, dest.marks_its_block());
    } else {
        let (low, high) = blocks.split_at_mut(source.block());
        let bytes = high[0].bytes(source.block_offset(), source.len());
        low[dest.block()].write(dest.block_offset(), bytes, dest.marks_its_block());
    }
}
