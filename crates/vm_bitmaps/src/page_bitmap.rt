//! The dirty pages of a range of bytes, as the bits of words.

ghost use Rattle.std.specs.Prelude.{◌≡◌, ℕ, ◌+◌, ◌-◌, ◌^◌, ◌<◌, ◌/◌, IfOk, OnOk, OnErr, length, min};
ghost use Rattle.std.specs.Prelude.{if◌then◌else◌, refl, vec_len};
ghost use Rattle.std.specs.Int.{div_ceil};
ghost use Rattle.std.specs.NonZero.{non_zero_usize_get};

use crate::bitmap::{Bitmap, NewBitmap, PAGE_SIZE};
use crate::page_words::{zeros, zeros_like};
use crate::summary::{clear_run, clear_words, mark_run, next_page};
use std::alloc::{AllocError, Global};
use std::marker::Model;
use std::mem;
use std::num::NonZeroUsize;

/// The dirty pages of a range of bytes: a mark for each page (vm-memory's `AtomicBitmap`, behind an exclusive
/// reference).
#[derive(Clone, Drop)]
pub struct PageBitmap {
    page_size: usize,
    byte_size: usize,
    len: usize,
    words: Vec<u64>,
    summary: Vec<u64>,
}

impl Model for PageBitmap {
    ghost use Rattle.std.specs.Prelude.{◌<◌, ◌≡◌};
    ghost use Rattle.vm_bitmaps.specs.Pages.{PageSet, pages_of};
    ghost use Rattle.vm_bitmaps.specs.Words.{marks_of, IsClean};
    ghost use Rattle.vm_bitmaps.specs.Summary.{IsSummary};

    ghost Value = { PageSet };

    ghost view = { λ b. record {
      page_size = b.page_size;
      byte_size = b.byte_size;
      marks = marks_of b.len b.words.items;
    } };

    ghost invariant = { λ b. (0 < b.page_size)
        × (b.len ≡ pages_of b.page_size b.byte_size)
        × IsClean b.len b.words.items
        × IsSummary b.words.items b.summary.items };
}

/// The page of the byte at `addr`. Pages of 4096 bytes, those of guest memory, need no division.
#[inline]
pub fn page_of(page_size: usize, addr: usize) -> usize
    requires { 0 < page_size }
    ensures { result ≡ addr / page_size }
{
    if page_size == PAGE_SIZE {
        addr / PAGE_SIZE
    } else {
        addr / page_size
    }
}

/// The page of the last of `len` bytes from `start` on. Bytes from 2^64 on don't count.
#[inline]
pub fn last_page(page_size: usize, start: usize, len: usize) -> usize
    requires positive { 0 < page_size }
    requires some { 0 < len }
    ensures { result ≡ (min (start + len) (2 ^ 64) - 1) / page_size }
{
    page_of(page_size, start.saturating_add(len - 1))
}

impl PageBitmap {
    ghost use Rattle.vm_bitmaps.specs.Pages.{IsNextMarked, clear_set, cleared_range, is_marked, mark_of};
    ghost use Rattle.vm_bitmaps.specs.Pages.{marked_range, pages_of, words_of};
    ghost use Rattle.vm_bitmaps.specs.Words.{page_bit, bit_of};

    // Clear marks for `byte_size` bytes.
    fn made(alloc: Global, byte_size: usize, page_size: usize) -> Result<Self, AllocError>
        requires { 0 < page_size }
        ensures { IfOk result (λ b. b ≡ clear_set page_size byte_size) }
    {
        let len = byte_size.div_ceil(page_size);
        let count = len.div_ceil(64);
        Ok(PageBitmap {
            page_size,
            byte_size,
            len,
            words: zeros(alloc, count)?,
            summary: zeros(alloc, count.div_ceil(64))?,
        })
    }

    /// Clear marks for `byte_size` bytes in pages of `page_size` bytes (vm-memory's `AtomicBitmap::new`).
    /// AllocError if an allocation fails.
    pub fn new(alloc: Global, byte_size: usize, page_size: NonZeroUsize) -> Result<Self, AllocError>
        ensures { IfOk result (λ b. b ≡ clear_set (non_zero_usize_get page_size) byte_size) }
    {
        PageBitmap::made(alloc, byte_size, page_size.get())
    }

    /// A copy, in memory of the allocator that this value was made with. AllocError if an allocation fails.
    pub fn try_clone(&self) -> Result<PageBitmap, AllocError>
        ensures { IfOk result (λ b. b ≡ self.now) }
    {
        Ok(PageBitmap {
            page_size: self.page_size,
            byte_size: self.byte_size,
            len: self.len,
            words: Vec::from_slice(*self.words.allocator(), &self.words)?,
            summary: Vec::from_slice(*self.summary.allocator(), &self.summary)?,
        })
    }

    /// The number of pages: `byte_size` divided by `page_size`, rounded up (vm-memory's `AtomicBitmap::len`).
    pub fn len(&self) -> usize
        ensures pages { result ≡ pages_of self.now.page_size self.now.byte_size }
        ensures marks { result ≡ length self.now.marks }
    {
        self.len
    }

    /// The number of bytes (vm-memory's `AtomicBitmap::byte_size`).
    pub fn byte_size(&self) -> usize
        ensures { result ≡ self.now.byte_size }
    {
        self.byte_size
    }

    /// The number of bytes of a page.
    pub fn page_size(&self) -> usize
        ensures size { result ≡ self.now.page_size }
        ensures positive { 0 < result }
    {
        self.page_size
    }

    /// Whether page `index` is marked. A page past the end isn't (vm-memory's `AtomicBitmap::is_bit_set`).
    pub fn is_bit_set(&self, index: usize) -> bool
        ensures { result ≡ mark_of self.now.marks index }
    {
        index < self.len && (self.words[index / 64] >> (index % 64)) & 1 == 1
    }

    /// Whether the page of the byte at `addr` is marked (vm-memory's `AtomicBitmap::is_addr_set`).
    pub fn is_addr_set(&self, addr: usize) -> bool
        ensures { result ≡ is_marked self.now.page_size self.now.marks addr }
    {
        self.is_bit_set(page_of(self.page_size, addr))
    }

    /// The first marked page from page `from` on. The search skips 64 words without a mark at a time.
    pub fn next_marked(&self, from: usize) -> Option<usize>
        ensures { IsNextMarked self.now.marks from result }
    {
        if from >= self.len {
            return None;
        }
        next_page(&self.words, &self.summary, from)
    }

    // Writes the marks of the pages of `len` bytes from `start` on.
    #[inline]
    fn write_range(&mut self, start: usize, len: usize, mark: bool)
        ensures { self.new ≡ record self.old {
          marks = if mark
              then marked_range self.old.page_size self.old.marks start len
              else cleared_range self.old.page_size self.old.marks start len;
        } }
    {
        if len == 0 {
            return;
        }
        let first = page_of(self.page_size, start);
        if first >= self.len {
            return;
        }
        let last = last_page(self.page_size, start, len).min(self.len - 1);
        if mark {
            mark_run(&mut self.words, &mut self.summary, first, last);
        } else {
            clear_run(&mut self.words, &mut self.summary, first, last);
        }
    }

    /// Marks the pages of `len` bytes from `start` on. Bytes past the end are ignored (vm-memory's
    /// `AtomicBitmap::set_addr_range`).
    pub fn set_addr_range(&mut self, start: usize, len: usize)
        ensures { self.new ≡ record self.old {
          marks = marked_range self.old.page_size self.old.marks start len;
        } }
    {
        self.write_range(start, len, true);
    }

    /// Clears the pages of `len` bytes from `start` on. Bytes past the end are ignored (vm-memory's
    /// `AtomicBitmap::reset_addr_range`).
    pub fn reset_addr_range(&mut self, start: usize, len: usize)
        ensures { self.new ≡ record self.old {
          marks = cleared_range self.old.page_size self.old.marks start len;
        } }
    {
        self.write_range(start, len, false);
    }

    /// Clears all marks (vm-memory's `AtomicBitmap::reset`).
    pub fn reset(&mut self)
        ensures { self.new ≡ clear_set self.old.page_size self.old.byte_size }
    {
        clear_words(&mut self.words, &mut self.summary);
    }

    /// Returns the marks as words of 64 pages, and clears all marks. Page p is bit p mod 64 of word p / 64
    /// (vm-memory's `AtomicBitmap::get_and_reset`). The new words are from the allocator that this value was
    /// made with. AllocError if that allocation fails: nothing changes.
    pub fn get_and_reset(&mut self) -> Result<Vec<u64>, AllocError>
        ensures words { IfOk result (λ words. words.items ≡ words_of self.old.marks) }
        ensures count { IfOk result (λ words. vec_len words ≡ div_ceil (length self.old.marks) 64) }
        ensures bits { IfOk result (λ words. (p : ℕ)
            → page_bit words.items p ≡ bit_of (mark_of self.old.marks p)) }
        ensures ok { OnOk result (self.new ≡ clear_set self.old.page_size self.old.byte_size) }
        ensures err { OnErr result (self.new ≡ self.old) }
    {
        let fresh = zeros_like(&self.words)?;
        self.summary.fill(0);
        Ok(mem::replace(&mut self.words, fresh))
    }
}

impl Bitmap for PageBitmap {
    ghost page_size = { λ b. b.page_size };

    ghost base = { λ b. 0 };

    ghost marks = { λ b. b.marks };

    ghost Keeps = { λ old new. new.byte_size ≡ old.byte_size };

    ghost keeps_same = { λ b. refl };

    #[inline(always)]
    fn mark_dirty(&mut self, offset: usize, len: usize) {
        self.write_range(offset, len, true);
    }

    fn dirty_at(&self, offset: usize) -> bool {
        self.is_addr_set(offset)
    }
}

impl NewBitmap for PageBitmap {
    ghost use Rattle.std.specs.Prelude.{false, replicate};
    ghost use Rattle.vm_bitmaps.specs.Pages.{clear_set, pages_of};

    ghost count = { λ n. pages_of 4096 n };

    fn with_len(alloc: Global, len: usize) -> Result<Self, AllocError>
        ensures size { IfOk result (λ b. b.page_size ≡ 4096) }
        ensures clear { IfOk result (λ b. b.marks ≡ replicate (pages_of 4096 len) false) }
        ensures set { IfOk result (λ b. b ≡ clear_set 4096 len) }
    {
        PageBitmap::made(alloc, len, PAGE_SIZE)
    }
}
