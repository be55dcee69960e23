//! Gathers the pages that are marked in a device's bitmap, without the device's lock.

ghost use Rattle.std.specs.Prelude.{◌≡◌, ℕ, ◌+◌, ◌<◌, ◌≤◌, IfOk, length};
ghost use Rattle.std.specs.Arc.{arc_value};
ghost use Rattle.std.specs.Int.{div_ceil};
ghost use Rattle.vm_bitmaps.specs.Words.{page_bit};
ghost use Rattle.vm_atomic_bitmaps.specs.Counts.{both_passes, cleared_by, in_word, tally_of};
ghost use Rattle.vm_atomic_bitmaps.specs.Passes.{IsPassOf, counting};
ghost use Rattle.vm_atomic_bitmaps.specs.Rule.{StandsAt};
ghost use Rattle.vm_atomic_bitmaps.specs.Steps.{NoneBeyond, SettlesAll, SettlesWord};
ghost use Rattle.fs_shared.specs.Portion.{recorded_pass, new_pass};

use crate::numbers::first_page;
use std::alloc::{AllocError, Global};
use std::marker::Model;
use std::num::NonZeroUsize;
use std::sync::Arc;
use vm_atomic_bitmaps::{AtomicBitmap, BitmapPass};
use vm_bitmaps::PAGE_SIZE;
use vm_memory_core::{HostMemory, PageBitmap};

/// Gathers the pages that the calls on a shared device wrote. Pages have 4096 bytes and are numbered block by
/// block. A harvest has a pass of the device's bitmap, and never waits for the device's lock.
#[derive(Drop)]
pub struct PageHarvest {
    bitmap: Arc<AtomicBitmap, Global>,
    pub(crate) pass: BitmapPass,
}

impl Model for PageHarvest {
    ghost use Rattle.std.specs.Arc.{arc_value};
    ghost use Rattle.vm_atomic_bitmaps.specs.Passes.{IsPassOf};
    ghost use Rattle.fs_shared.specs.Portion.{HasSeenItsOwn};
    ghost use Rattle.fs_shared.specs.Marks.{Harvest};

    ghost Value = { Harvest };

    ghost view = { λ h. record { bitmap = arc_value h.bitmap; pass = h.pass } };

    ghost invariant = { λ h. IsPassOf (arc_value h.bitmap) h.pass × HasSeenItsOwn h.pass.counts.pages };
}

ghost use Rattle.fs_shared.specs.Marks.{HasPagesOf, first_of};

// A clear bitmap of a host's pages, with its first pass.
fn host_pages(
    alloc: Global,
    host: &HostMemory<PageBitmap>,
) -> Result<(AtomicBitmap, BitmapPass), AllocError>
    ensures pages { IfOk result (λ r. HasPagesOf host.now r.0) }
    ensures pass { IfOk result (λ r. r.1 ≡ first_of r.0) }
    ensures own { IfOk result (λ r. IsPassOf r.0 r.1) }
{
    let count = first_page(host, host.block_count())?;
    let Some(byte_size) = count.checked_mul(PAGE_SIZE) else {
        return Err(AllocError);
    };
    AtomicBitmap::new(alloc, byte_size, NonZeroUsize::new(PAGE_SIZE).unwrap())
}

/// A clear bitmap of a host's pages, the pass of the first share, and the harvest. Pass and harvest each have
/// half of the bitmap's first pass. AllocError if an allocation fails.
pub(crate) fn clear_pages(
    alloc: Global,
    host: &HostMemory<PageBitmap>,
) -> Result<(Arc<AtomicBitmap, Global>, BitmapPass, PageHarvest), AllocError>
    ensures pages { IfOk result (λ r. HasPagesOf host.now (arc_value r.0)) }
    ensures share { IfOk result (λ r. r.1 ≡ recorded_pass (first_of (arc_value r.0))) }
    ensures own { IfOk result (λ r. IsPassOf (arc_value r.0) r.1) }
    ensures harvest { IfOk result
        (λ r. r.2 ≡ record { bitmap = arc_value r.0; pass = new_pass (first_of (arc_value r.0)) }) }
{
    let (bitmap, mut first) = host_pages(alloc, host)?;
    let pass = bitmap.split_pass(&mut first).unwrap();
    let bitmap = Arc::new(alloc, bitmap)?;
    let harvest = PageHarvest {
        bitmap: Arc::try_clone(&bitmap)?,
        pass,
    };
    Ok((bitmap, first, harvest))
}

impl PageHarvest {
    /// The number of words that the pages take, with 64 pages each.
    pub fn words(&self) -> usize
        ensures { result ≡ div_ceil self.now.bitmap.len 64 }
    {
        self.bitmap.words()
    }

    /// Takes the marks of a word by one atomic swap with 0, while other threads mark
    /// (`AtomicBitmap::gather`). Bit b of the result is page 64 * word + b.
    pub fn gather(&mut self, word: usize) -> u64
        requires { word < div_ceil self.old.bitmap.len 64 }
        ensures harvest { self.new ≡ record self.old {
          pass = counting self.old.pass (cleared_by (in_word word) result self.old.pass.counts.pages);
        } }
        ensures word { SettlesWord self.old.pass.counts word result }
        ensures past { NoneBeyond self.old.bitmap.len word result }
        ensures rule { StandsAt self.old.bitmap.len word result self.old.pass.counts }
    {
        self.bitmap.gather(&mut self.pass, word)
    }

    // Adds a share's pass to the harvest's.
    pub(crate) fn take_in(&mut self, pass: BitmapPass)
        requires own { IsPassOf self.old.bitmap pass }
        requires none { (p : ℕ) → (tally_of pass.counts.pages p).off ≡ 0 }
        ensures own { IsPassOf self.new.bitmap self.new.pass }
        ensures harvest { self.new ≡ record self.old {
          pass = record { name = self.old.pass.name; counts = both_passes self.old.pass.counts pass.counts };
        } }
    {
        self.bitmap.join_pass(&mut self.pass, pass);
    }

    // Takes all marks, word by word.
    pub(crate) fn gather_all(&mut self, words: &mut [u64])
        requires { length words.old ≡ div_ceil self.old.bitmap.len 64 }
        ensures count { length words.new ≡ length words.old }
        ensures harvest { self.new
            ≡ record self.old { pass = counting self.old.pass self.new.pass.counts.pages } }
        ensures taken { (p : ℕ) → p < self.old.bitmap.len →
            (tally_of self.new.pass.counts.pages p).off
            ≡ (tally_of self.old.pass.counts.pages p).off + page_bit words.new p }
        ensures whole { SettlesAll self.old.pass.counts words.new }
        ensures past { (p : ℕ) → self.old.bitmap.len ≤ p → page_bit words.new p ≡ 0 }
    {
        for word in 0..self.bitmap.words() {
            words[word] = self.gather(word);
        }
    }
}
