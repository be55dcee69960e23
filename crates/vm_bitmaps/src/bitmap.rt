//! The traits of a set of dirty pages (vm-memory's `Bitmap`, `NewBitmap`).

ghost use Rattle.std.specs.Prelude.{◌≡◌, ℕ, ◌+◌, Bool, List, [], IfOk, false, replicate, option_map};
ghost use Rattle.std.specs.Prelude.{unwrap_or, refl};
ghost use Rattle.vm_bitmaps.specs.Pages.{marked_range, is_marked};
ghost use Rattle.vm_bitmaps.specs.Keeps.{KeepsIf, KeepsIf-same};

use std::alloc::{AllocError, Global};

/// The dirty pages of a range of bytes; offsets and lengths count bytes (vm-memory's `Bitmap`).
pub trait Bitmap {
    // the number of bytes of a page, the offset of the range's first byte in the pages, and the pages' marks
    ghost page_size: { Self → ℕ };

    ghost base: { Self → ℕ };

    ghost marks: { Self → List Bool };

    // the bitmap's other parts, which don't change when pages are marked
    ghost Keeps: { Self → Self → Type 0 } = { λ old new. Unit {0} };

    /// Marks the pages of `len` bytes from `offset` on. Bytes past the bitmap are ignored.
    fn mark_dirty(&mut self, offset: usize, len: usize)
        ensures size { page_size self.new ≡ page_size self.old }
        ensures base { base self.new ≡ base self.old }
        ensures marks { marks self.new
            ≡ marked_range (page_size self.old) (marks self.old) (base self.old + offset) len }
        ensures preserved { Keeps self.old self.new };

    /// Whether the page of the byte at `offset` is marked.
    fn dirty_at(&self, offset: usize) -> bool
        ensures { result ≡ is_marked (page_size self.now) (marks self.now) (base self.now + offset) };

    // an unchanged bitmap is kept
    ghost keeps_same: { (b : Self) → Keeps b b };
}

/// The number of bytes of a page of guest memory.
pub const PAGE_SIZE: usize = 4096;

/// A bitmap that can be made for any length, with pages of 4096 bytes (vm-memory's `NewBitmap`).
pub trait NewBitmap: Bitmap + Drop {
    // the number of marks of a bitmap for n bytes
    ghost count: { ℕ → ℕ };

    /// A clear bitmap for `len` bytes (vm-memory's `NewBitmap::with_len`). AllocError if an allocation fails.
    fn with_len(alloc: Global, len: usize) -> Result<Self, AllocError>
        ensures size { IfOk result (λ b. Self.page_size b ≡ 4096) }
        ensures base { IfOk result (λ b. Self.base b ≡ 0) }
        ensures clear { IfOk result (λ b. Self.marks b ≡ replicate (count len) false) };
}

/// A bitmap without pages: it marks nothing, and nothing is dirty.
impl Bitmap for () {
    ghost page_size = { λ b. 4096 };

    ghost base = { λ b. 0 };

    ghost marks = { λ b. [] };

    ghost keeps_same = { λ b. tt };

    fn mark_dirty(&mut self, _offset: usize, _len: usize) {}

    fn dirty_at(&self, _offset: usize) -> bool {
        false
    }
}

impl NewBitmap for () {
    ghost count = { λ n. 0 };

    fn with_len(_alloc: Global, _len: usize) -> Result<Self, AllocError> {
        Ok(())
    }
}

/// `None` is a bitmap without pages.
impl<B: Bitmap> Bitmap for Option<B> {
    ghost page_size = { λ o. unwrap_or (option_map B.page_size o) 4096 };

    ghost base = { λ o. unwrap_or (option_map B.base o) 0 };

    ghost marks = { λ o. unwrap_or (option_map B.marks o) [] };

    ghost Keeps = { KeepsIf B.Keeps };

    ghost keeps_same = { KeepsIf-same B.Keeps B.keeps_same };

    fn mark_dirty(&mut self, offset: usize, len: usize) {
        if let Some(inner) = self {
            inner.mark_dirty(offset, len);
        }
    }

    fn dirty_at(&self, offset: usize) -> bool {
        match self {
            Some(inner) => inner.dirty_at(offset),
            None => false,
        }
    }
}

/// The bitmap behind a reference. Marking doesn't change the reference.
impl<B: Bitmap> Bitmap for &mut B {
    ghost page_size = { λ r. B.page_size r.now };

    ghost base = { λ r. B.base r.now };

    ghost marks = { λ r. B.marks r.now };

    ghost Keeps = { λ old new. (new.ghost_name ≡ old.ghost_name) × B.Keeps old.now new.now };

    ghost keeps_same = { λ r. (refl, B.keeps_same r.now) };

    fn mark_dirty(&mut self, offset: usize, len: usize) {
        (**self).mark_dirty(offset, len);
    }

    fn dirty_at(&self, offset: usize) -> bool {
        (**self).dirty_at(offset)
    }
}
