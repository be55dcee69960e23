//! A bitmap of pages whose words threads share without a lock: each call on one word is one atomic step.

ghost use Rattle.std.specs.Prelude.{◌≡◌, ℕ, ◌<◌, ◌≤◌, IfOk, IfErr, IfSome, IsSome, vec_len, slice_index};
ghost use Rattle.std.specs.Prelude.{length, true};
ghost use Rattle.std.specs.Int.{div_ceil};
ghost use Rattle.std.specs.NonZero.{non_zero_usize_get};
ghost use Rattle.std.specs.Mem.Slots.{slots_items, slots_len, IsFull};
ghost use mathlib.Core.Option.{some};
ghost use lib.ListN.{get_elem?};
ghost use Rattle.vm_bitmaps.specs.Pages.{pages_of};
ghost use Rattle.vm_bitmaps.specs.Words.{page_bit};
ghost use Rattle.vm_atomic_bitmaps.specs.Counts.{first_pass, marked_by, cleared_by, read_by, picks, in_word};
ghost use Rattle.vm_atomic_bitmaps.specs.Counts.{preserved_half, new_half, both_passes, met_with};
ghost use Rattle.vm_atomic_bitmaps.specs.Rule.{Stands, StandsAt};
ghost use Rattle.vm_atomic_bitmaps.specs.Steps.{SettlesWord, SettlesAll, NoneBeyond};
ghost use Rattle.vm_atomic_bitmaps.specs.Passes.{IsPassOf, counting};

use crate::bitmap_pass::BitmapPass;
use crate::counts::{Clear, Gather, Halve, Mark, PageCounts, PageRule, Read, TakeIn, Tell};
use atomic_table::{Closed, Table};
use std::alloc::{AllocError, Global};
use std::marker::Model;
use std::num::NonZeroUsize;
use vm_bitmaps::page_words::zeros;

/// A mark for each page of a range of bytes (vm-memory's `AtomicBitmap`). Threads share it by `&`, each with
/// a pass of its own. Page p is bit p mod 64 of word p / 64.
#[derive(Drop)]
pub struct AtomicBitmap {
    pub(crate) page_size: usize,
    byte_size: usize,
    pub(crate) len: usize,
    table: Table<(), PageCounts, usize, PageRule, Global>,
}

impl Model for AtomicBitmap {
    ghost use Rattle.std.specs.Prelude.{◌≡◌, ◌<◌};
    ghost use Rattle.vm_bitmaps.specs.Pages.{pages_of};
    ghost use Rattle.vm_atomic_bitmaps.specs.Rule.{table_words};
    ghost use Rattle.vm_atomic_bitmaps.specs.Passes.{SharedPages};

    ghost Value = { SharedPages };

    ghost view = { λ b. record {
      name = b.table.shared.table_id;
      page_size = b.page_size;
      byte_size = b.byte_size;
      len = b.len;
    } };

    ghost invariant = { λ b.
        (0 < b.page_size) × (b.len ≡ pages_of b.page_size b.byte_size) × (b.table.shared.key ≡ b.len)
        × (b.table.shared.table_id.words ≡ table_words b.len) × (b.table.shared.table_id.slots ≡ 0) };
}

// Copies the first words of a closed table.
fn copy_words(closed: &Closed<(), Global>, words: &mut [u64])
    requires full { IsFull closed.now.words }
    requires room { length words.old ≤ slots_len closed.now.words }
    ensures count { length words.new ≡ length words.old }
    ensures same { (i : ℕ)
        → i < length words.new
        → get_elem? (slots_items closed.now.words) i ≡ some (slice_index words.new i) }
{
    let mut i = 0;
    while i < words.len() {
        words[i] = closed.word(i);
        i += 1;
    }
}

impl AtomicBitmap {
    /// A clear bitmap for `byte_size` bytes in pages of `page_size` bytes, with its first pass, which has
    /// every part (vm-memory's `AtomicBitmap::new`). AllocError if an allocation fails.
    pub fn new(
        alloc: Global,
        byte_size: usize,
        page_size: NonZeroUsize,
    ) -> Result<(AtomicBitmap, BitmapPass), AllocError>
        ensures page_size { IfOk result (λ r. r.0.page_size ≡ non_zero_usize_get page_size) }
        ensures byte_size { IfOk result (λ r. r.0.byte_size ≡ byte_size) }
        ensures len { IfOk result (λ r. r.0.len ≡ pages_of (non_zero_usize_get page_size) byte_size) }
        ensures pass { IfOk result (λ r. r.1 ≡ record { name = r.0.name; counts = first_pass r.0.len }) }
        ensures own { IfOk result (λ r. IsPassOf r.0 r.1) }
    {
        let page_size = page_size.get();
        let len = byte_size.div_ceil(page_size);
        let words = vec![in alloc; 0; len.div_ceil(64).max(1)]?;
        let (table, seat) = Table::of_words(alloc, words.as_slice(), &len)?;
        let bitmap = AtomicBitmap {
            page_size,
            byte_size,
            len,
            table,
        };
        Ok((bitmap, BitmapPass { seat }))
    }

    /// The number of pages: `byte_size` divided by page size, rounded up (vm-memory's `AtomicBitmap::len`).
    pub fn len(&self) -> usize
        ensures len { result ≡ self.now.len }
        ensures pages { result ≡ pages_of self.now.page_size self.now.byte_size }
    {
        self.len
    }

    /// The number of bytes (vm-memory's `AtomicBitmap::byte_size`).
    pub fn byte_size(&self) -> usize
        ensures { result ≡ self.now.byte_size }
    {
        self.byte_size
    }

    /// The number of words, of 64 pages each.
    #[inline]
    pub fn words(&self) -> usize
        ensures { result ≡ div_ceil self.now.len 64 }
    {
        self.len.div_ceil(64)
    }

    // Sets the bits of the mask in a word, in one step, and returns the word's value before it.
    #[inline]
    pub(crate) fn mark_word(&self, pass: &mut BitmapPass, word: usize, mask: u64) -> u64
        requires own { IsPassOf self.now pass.old }
        requires inside { word < div_ceil self.now.len 64 }
        requires past { NoneBeyond self.now.len word mask }
        ensures pass { pass.new
            ≡ counting pass.old (marked_by (picks word mask 1) result pass.old.counts.pages) }
        ensures word { SettlesWord pass.old.counts word result }
    {
        self.table
            .shared
            .fetch_or::<Mark>(&mut pass.seat, word, mask)
    }

    // Clears the bits of the mask in a word, in one step, and returns the word's value before it.
    #[inline]
    pub(crate) fn clear_word(&self, pass: &mut BitmapPass, word: usize, mask: u64) -> u64
        requires own { IsPassOf self.now pass.old }
        requires inside { word < div_ceil self.now.len 64 }
        ensures pass { pass.new
            ≡ counting pass.old (cleared_by (picks word mask 1) result pass.old.counts.pages) }
        ensures word { SettlesWord pass.old.counts word result }
    {
        self.table
            .shared
            .fetch_and::<Clear>(&mut pass.seat, word, !mask)
    }

    /// Returns the marks of a word and clears them, in one step: a swap with 0. Bit b is page 64 * word + b.
    /// Each returned bit is how often all passes had set the page less how often they had cleared it
    /// (`StandsAt`). One pass alone knows its own counts, and `held` and `seen` of the passes that it met.
    #[inline]
    pub fn gather(&self, pass: &mut BitmapPass, word: usize) -> u64
        requires own { IsPassOf self.now pass.old }
        requires inside { word < div_ceil self.now.len 64 }
        ensures pass { pass.new ≡ counting pass.old (cleared_by (in_word word) result pass.old.counts.pages) }
        ensures own { IsPassOf self.now pass.new }
        ensures word { SettlesWord pass.old.counts word result }
        ensures past { NoneBeyond self.now.len word result }
        ensures rule { StandsAt self.now.len word result pass.old.counts }
    {
        self.table.shared.swap::<Gather>(&mut pass.seat, word, 0)
    }

    /// Returns a word, in one step: a load. Bit b is page 64 * word + b. Afterwards the pass's `held` of each
    /// of these pages is its `seen` plus its bit. The bits follow from the counts of all passes, as for
    /// `gather`.
    #[inline]
    pub fn word(&self, pass: &mut BitmapPass, word: usize) -> u64
        requires own { IsPassOf self.now pass.old }
        requires inside { word < div_ceil self.now.len 64 }
        ensures pass { pass.new ≡ counting pass.old (read_by (in_word word) result pass.old.counts.pages) }
        ensures own { IsPassOf self.now pass.new }
        ensures word { SettlesWord pass.old.counts word result }
        ensures past { NoneBeyond self.now.len word result }
        ensures rule { StandsAt self.now.len word result pass.old.counts }
    {
        self.table.shared.load::<Read>(&mut pass.seat, word)
    }

    /// A second pass, which has counted nothing. Each of the two has half of the part. Always `Some`.
    pub fn split_pass(&self, pass: &mut BitmapPass) -> Option<BitmapPass>
        requires { IsPassOf self.now pass.old }
        ensures some { IsSome result }
        ensures pass { pass.new ≡ record { name = pass.old.name; counts = preserved_half pass.old.counts } }
        ensures second { IfSome result
            (λ p. p ≡ record { name = pass.old.name; counts = new_half pass.old.counts }) }
        ensures own { IsPassOf self.now pass.new }
        ensures own_second { IfSome result (λ p. IsPassOf self.now p) }
    {
        let seat = self.table.shared.split_seat::<Halve>(&mut pass.seat);
        Some(BitmapPass { seat })
    }

    /// Adds the counts and the part of another pass to this one. The other pass is consumed.
    pub fn join_pass(&self, pass: &mut BitmapPass, other: BitmapPass)
        requires own { IsPassOf self.now pass.old }
        requires other { IsPassOf self.now other }
        ensures pass { pass.new
            ≡ record { name = pass.old.name; counts = both_passes pass.old.counts other.counts } }
        ensures own { IsPassOf self.now pass.new }
    {
        let BitmapPass { seat } = other;
        self.table.shared.join_seat::<TakeIn>(&mut pass.seat, seat);
    }

    /// Raises `held` and `seen` of the first pass to those of the other. Always returns true.
    pub fn meet_pass(&self, pass: &mut BitmapPass, other: &mut BitmapPass) -> bool
        requires own { IsPassOf self.now pass.old }
        requires other { IsPassOf self.now other.old }
        ensures met { result ≡ true }
        ensures pass { pass.new ≡ counting pass.old (met_with other.old.counts.pages pass.old.counts.pages) }
        ensures other { other.new ≡ other.old }
        ensures own { IsPassOf self.now pass.new }
        ensures own_other { IsPassOf self.now other.new }
    {
        let seat = self.table.shared.split_seat::<Tell>(&mut other.seat);
        self.table.shared.join_seat::<TakeIn>(&mut pass.seat, seat);
        true
    }

    /// Consumes the bitmap and the pass, and returns the words. Page p is bit p mod 64 of word p / 64. If an
    /// allocation fails, the error holds the bitmap and the pass, unchanged.
    pub fn close(
        self,
        alloc: Global,
        pass: BitmapPass,
    ) -> Result<Vec<u64>, (AtomicBitmap, BitmapPass)>
        requires { IsPassOf self pass }
        ensures err { IfErr result (λ r. (r.0 ≡ self) × (r.1 ≡ pass)) }
        ensures count { IfOk result (λ words. vec_len words ≡ div_ceil self.len 64) }
        ensures past { IfOk result (λ words. (p : ℕ) → self.len ≤ p → page_bit words.items p ≡ 0) }
        ensures rule { IfOk result (λ words. Stands self.len words.items pass.counts) }
        ensures whole { IfOk result (λ words. SettlesAll pass.counts words.items) }
    {
        let count = self.words();
        let Ok(mut words) = zeros(alloc, count) else {
            return Err((self, pass));
        };
        let AtomicBitmap { table, .. } = self;
        let BitmapPass { seat } = pass;
        let closed = table.close_with(seat);
        copy_words(&closed, &mut words);
        closed.free();
        Ok(words)
    }
}
