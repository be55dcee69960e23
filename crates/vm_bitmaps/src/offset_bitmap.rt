//! A part of a bitmap's bytes (vm-memory's `BaseSlice`, `RefSlice`).

ghost use Rattle.std.specs.Prelude.{◌≡◌, ◌+◌, refl};
ghost use Rattle.vm_bitmaps.specs.OffsetBitmap.{sliced_of, begin_of};

use crate::bitmap::Bitmap;

/// The bytes of a bitmap from an offset on (vm-memory's `BaseSlice`).
#[derive(Drop)]
pub struct BaseSlice<B> {
    inner: B,
    offset: usize,
}

/// The bytes of a bitmap from an offset on, behind a reference to it (vm-memory's `RefSlice`).
pub type RefSlice<'a, B> = BaseSlice<&'a mut B>;

impl<B> BaseSlice<B> {
    /// The bytes of `inner` from `offset` on.
    pub fn new(inner: B, offset: usize) -> BaseSlice<B>
        ensures inner { sliced_of result ≡ inner }
        ensures offset { begin_of result ≡ offset }
    {
        BaseSlice { inner, offset }
    }
}

/// Each offset counts from the slice's own. If their sum doesn't fit 64 bits, there is no byte at it: nothing
/// is marked and nothing is dirty.
impl<B: Bitmap> Bitmap for BaseSlice<B> {
    ghost page_size = { λ s. B.page_size (sliced_of s) };

    ghost base = { λ s. B.base (sliced_of s) + begin_of s };

    ghost marks = { λ s. B.marks (sliced_of s) };

    ghost Keeps = { λ old new. (begin_of new ≡ begin_of old) × B.Keeps (sliced_of old) (sliced_of new) };

    ghost keeps_same = { λ s. (refl, B.keeps_same (sliced_of s)) };

    fn mark_dirty(&mut self, offset: usize, len: usize) {
        if let Some(offset) = self.offset.checked_add(offset) {
            self.inner.mark_dirty(offset, len);
        }
    }

    fn dirty_at(&self, offset: usize) -> bool {
        match self.offset.checked_add(offset) {
            Some(offset) => self.inner.dirty_at(offset),
            None => false,
        }
    }
}
