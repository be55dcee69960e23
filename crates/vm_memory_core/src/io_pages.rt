//! The dirty pages of a device's I/O addresses.

ghost use Rattle.std.specs.Prelude.{◌≡◌, ◌+◌, ◌-◌, ◌≤◌, IfOk, false, length, map, replicate};
ghost use Rattle.vm_bitmaps.specs.Pages.{marked_range};
ghost use Rattle.vm_memory_core.specs.Host.{changed_at};

use crate::window::IoMarks;
use std::alloc::{AllocError, Global};
use std::marker::Model;
use vm_bitmaps::{Bitmap, NewBitmap, PageBitmap};

/// The dirty pages of the I/O addresses from 0 on, of 4096 bytes each. In contracts it is the list of its
/// marks.
#[derive(Drop)]
pub struct IoPages<B: NewBitmap> {
    bitmap: B,
}

impl<B: NewBitmap> Model for IoPages<B> {
    ghost use Rattle.std.specs.Prelude.{◌≡◌, Bool, List};

    ghost Value = { List Bool };

    ghost view = { λ p. B.marks p.bitmap };

    ghost invariant = { λ p. (B.page_size p.bitmap ≡ 4096) × (B.base p.bitmap ≡ 0) };
}

impl<B: NewBitmap> IoPages<B> {
    /// Clear pages, of 4096 addresses each, for the addresses below `byte_size`. AllocError if an allocation
    /// fails.
    pub fn with_len(alloc: Global, byte_size: usize) -> Result<IoPages<B>, AllocError>
        ensures { IfOk result (λ p. p ≡ replicate (B.count byte_size) false) }
    {
        let bitmap = B::with_len(alloc, byte_size)?;
        Ok(IoPages { bitmap })
    }
}

// Marks the I/O pages of `count` bytes from an offset of a block on. Ignores a set that doesn't exist, and
// addresses from 2^64 on.
pub(crate) fn mark_pages<B: NewBitmap>(
    sets: &mut [IoPages<B>],
    marks: IoMarks,
    offset: usize,
    count: usize,
)
    requires { marks.from ≤ offset }
    ensures { sets.new ≡ changed_at sets.old marks.set
        (λ m. marked_range 4096 m (marks.base + (offset - marks.from)) count) }
{
    if marks.set < sets.len() {
        if let Some(address) = marks.base.checked_add((offset - marks.from) as u64) {
            sets[marks.set].mark_dirty(address as usize, count);
        }
    }
}

impl<B: NewBitmap> Bitmap for IoPages<B> {
    ghost page_size = { λ p. 4096 };

    ghost base = { λ p. 0 };

    ghost marks = { λ p. p };

    ghost keeps_same = { λ p. tt };

    fn mark_dirty(&mut self, offset: usize, len: usize) {
        self.bitmap.mark_dirty(offset, len);
    }

    fn dirty_at(&self, offset: usize) -> bool {
        self.bitmap.dirty_at(offset)
    }
}

impl IoPages<PageBitmap> {
    /// The number of pages.
    pub fn len(&self) -> usize
        ensures { result ≡ length self.now }
    {
        self.bitmap.len()
    }

    // A copy of the marks.
    fn try_clone(&self) -> Result<IoPages<PageBitmap>, AllocError>
        ensures { IfOk result (λ p. p ≡ self.now) }
    {
        let bitmap = self.bitmap.try_clone()?;
        Ok(IoPages { bitmap })
    }

    /// Clears all marks.
    pub fn reset(&mut self)
        ensures { self.new ≡ map (λ _. false) self.old }
    {
        let pages = self.bitmap.len();
        self.bitmap.reset();
        prove_eq!(self.bitmap.len(), pages);
    }
}

// A copy of the sets.
pub(crate) fn cloned_sets(
    alloc: Global,
    sets: &[IoPages<PageBitmap>],
) -> Result<Vec<IoPages<PageBitmap>>, AllocError>
    ensures { IfOk result (λ copies. copies.items ≡ sets.now) }
{
    let mut copies = Vec::with_capacity(alloc, sets.len())?;
    for set in sets {
        copies.push(set.try_clone()?)?;
    }
    Ok(copies)
}
