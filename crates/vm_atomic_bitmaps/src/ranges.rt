//! Calls on runs of many pages: one atomic step for each word of the run.

ghost use Rattle.std.specs.Prelude.{◌≡◌, ℕ, ◌+◌, ◌*◌, ◌<◌, ◌≤◌, ◌/◌, IfOk, OnErr, vec_len, slice_set, length};
ghost use Rattle.std.specs.Prelude.{true, false, min, max, nat_eq};
ghost use Rattle.std.specs.Int.{div_ceil};
ghost use Rattle.vm_bitmaps.specs.Words.{page_bit, bit_of};
ghost use Rattle.vm_atomic_bitmaps.specs.Steps.{SettlesWord, SettlesAll, NoneBeyond};
ghost use Rattle.vm_atomic_bitmaps.specs.Passes.{IsPassOf, counting, marks_page, clears_page, changes_page};
ghost use Rattle.vm_atomic_bitmaps.specs.Passes.{ByMark, ByClearing, ByChange, ByGathering, HasRead, Changes};
ghost use Rattle.vm_atomic_bitmaps.specs.Passes.{ChangesInWord, ChangesRun};

use crate::atomic_bitmap::AtomicBitmap;
use crate::bitmap_pass::BitmapPass;
use std::alloc::{AllocError, Global};
use vm_bitmaps::page_bitmap::{last_page, page_of};
use vm_bitmaps::page_words::mask;

// The first bit of a word that is a page from `first` to `last`, and the bit after the last such one.
#[inline]
fn bits_in_word(word: usize, first: usize, last: usize) -> (usize, usize)
    requires ordered { first ≤ last }
    requires from { first / 64 ≤ word }
    requires to { word ≤ last / 64 }
    ensures bits { (result.0 < result.1) × (result.1 ≤ 64) }
    ensures first { max first (64 * word) ≡ 64 * word + result.0 }
    ensures end { min (last + 1) (64 * word + 64) ≡ 64 * word + result.1 }
{
    let from = if word == first / 64 { first % 64 } else { 0 };
    let to = if word == last / 64 { last % 64 + 1 } else { 64 };
    (from, to)
}

// The change that a call makes to its pages.
#[derive(Clone, Copy)]
enum PageChange {
    Mark,
    Clear,
}

impl AtomicBitmap {
    // Changes the pages of one word from `first` to `last`, in one step.
    #[inline(always)]
    fn change_in_word(
        &self,
        pass: &mut BitmapPass,
        change: PageChange,
        word: usize,
        first: usize,
        last: usize,
    )
        requires own { IsPassOf self.now pass.old }
        requires ordered { first ≤ last }
        requires from { first / 64 ≤ word }
        requires to { word ≤ last / 64 }
        requires within { last < self.now.len }
        ensures pass { pass.new ≡ counting pass.old pass.new.counts.pages }
        ensures pages { ChangesInWord (ByChange change pass.old.counts) pass.old.counts.pages
            pass.new.counts.pages word first last }
    {
        let (from, to) = bits_in_word(word, first, last);
        let bits = mask(from, to);
        match change {
            PageChange::Mark => self.mark_word(pass, word, bits),
            PageChange::Clear => self.clear_word(pass, word, bits),
        };
    }

    // Changes the pages from `first` to `last`, in one step for each word.
    #[inline(always)]
    fn change_run(&self, pass: &mut BitmapPass, change: PageChange, first: usize, last: usize)
        requires own { IsPassOf self.now pass.old }
        requires ordered { first ≤ last }
        requires within { last < self.now.len }
        ensures pass { pass.new ≡ counting pass.old pass.new.counts.pages }
        ensures pages { ChangesRun (ByChange change pass.old.counts) pass.old.counts.pages
            pass.new.counts.pages first (last + 1) }
    {
        let mut word = first / 64;
        while word <= last / 64 {
            self.change_in_word(pass, change, word, first, last);
            word += 1;
        }
    }

    // Changes the pages of `len` bytes from `start` on, in one step for each word. Bytes past the end are
    // ignored.
    #[inline(always)]
    fn change_addr_range(&self, pass: &mut BitmapPass, change: PageChange, start: usize, len: usize)
        requires { IsPassOf self.now pass.old }
        ensures pass { pass.new ≡ counting pass.old pass.new.counts.pages }
        ensures pages { Changes (ByChange change pass.old.counts)
            (changes_page change self.now.page_size self.now.len start len)
            pass.old.counts.pages pass.new.counts.pages }
    {
        if len == 0 {
            return;
        }
        let first = page_of(self.page_size, start);
        if first >= self.len {
            return;
        }
        let last = last_page(self.page_size, start, len).min(self.len - 1);
        self.change_run(pass, change, first, last);
    }

    /// Marks page `index`. A page past the end is ignored (vm-memory's `AtomicBitmap::set_bit`).
    #[inline]
    pub fn set_bit(&self, pass: &mut BitmapPass, index: usize)
        requires { IsPassOf self.now pass.old }
        ensures pass { pass.new ≡ counting pass.old pass.new.counts.pages }
        ensures pages { Changes (ByMark pass.old.counts) (nat_eq index) pass.old.counts.pages
            pass.new.counts.pages }
        ensures own { IsPassOf self.now pass.new }
    {
        if index < self.len {
            self.change_in_word(pass, PageChange::Mark, index / 64, index, index);
        }
    }

    /// Clears page `index`. A page past the end is ignored (vm-memory's `AtomicBitmap::reset_bit`).
    #[inline]
    pub fn reset_bit(&self, pass: &mut BitmapPass, index: usize)
        requires { IsPassOf self.now pass.old }
        ensures pass { pass.new ≡ counting pass.old pass.new.counts.pages }
        ensures pages { Changes (ByClearing pass.old.counts) (nat_eq index) pass.old.counts.pages
            pass.new.counts.pages }
        ensures own { IsPassOf self.now pass.new }
    {
        if index < self.len {
            self.change_in_word(pass, PageChange::Clear, index / 64, index, index);
        }
    }

    /// Marks the pages of `len` bytes from `start` on, in one step for each word. Bytes past the end are
    /// ignored (vm-memory's `AtomicBitmap::set_addr_range`).
    #[inline]
    pub fn set_addr_range(&self, pass: &mut BitmapPass, start: usize, len: usize)
        requires { IsPassOf self.now pass.old }
        ensures pass { pass.new ≡ counting pass.old pass.new.counts.pages }
        ensures pages { Changes (ByMark pass.old.counts)
            (marks_page self.now.page_size self.now.len start len)
            pass.old.counts.pages pass.new.counts.pages }
        ensures own { IsPassOf self.now pass.new }
    {
        self.change_addr_range(pass, PageChange::Mark, start, len);
    }

    /// Clears the pages of `len` bytes from `start` on, in one step for each word. Bytes past the end are
    /// ignored (vm-memory's `AtomicBitmap::reset_addr_range`).
    #[inline]
    pub fn reset_addr_range(&self, pass: &mut BitmapPass, start: usize, len: usize)
        requires { IsPassOf self.now pass.old }
        ensures pass { pass.new ≡ counting pass.old pass.new.counts.pages }
        ensures pages { Changes (ByClearing pass.old.counts)
            (clears_page self.now.page_size self.now.len start len)
            pass.old.counts.pages pass.new.counts.pages }
        ensures own { IsPassOf self.now pass.new }
    {
        self.change_addr_range(pass, PageChange::Clear, start, len);
    }

    // Whether a page below the end is marked.
    #[inline]
    fn reads_set(&self, pass: &mut BitmapPass, index: usize) -> bool
        requires own { IsPassOf self.now pass.old }
        requires inside { index < self.now.len }
        ensures read { HasRead pass.old pass.new index (bit_of result) }
        ensures own { IsPassOf self.now pass.new }
    {
        let word = self.word(pass, index / 64);
        (word >> (index % 64)) & 1 == 1
    }

    /// Whether page `index` is marked, by one load of its word (vm-memory's `AtomicBitmap::is_bit_set`). A
    /// page past the end isn't, and no word is loaded.
    #[inline]
    pub fn is_bit_set(&self, pass: &mut BitmapPass, index: usize) -> bool
        requires { IsPassOf self.now pass.old }
        ensures read { index < self.now.len → HasRead pass.old pass.new index (bit_of result) }
        ensures past { self.now.len ≤ index → (result ≡ false) × (pass.new ≡ pass.old) }
        ensures own { IsPassOf self.now pass.new }
    {
        index < self.len && self.reads_set(pass, index)
    }

    /// Whether the page of the byte at `addr` is marked (vm-memory's `AtomicBitmap::is_addr_set`).
    #[inline]
    pub fn is_addr_set(&self, pass: &mut BitmapPass, addr: usize) -> bool
        requires { IsPassOf self.now pass.old }
        ensures read { addr / self.now.page_size < self.now.len
            → HasRead pass.old pass.new (addr / self.now.page_size) (bit_of result) }
        ensures past { self.now.len ≤ addr / self.now.page_size → (result ≡ false) × (pass.new ≡ pass.old) }
        ensures own { IsPassOf self.now pass.new }
    {
        self.is_bit_set(pass, page_of(self.page_size, addr))
    }

    // Gathers the marks of a word into `words`.
    #[inline]
    fn take_into(&self, pass: &mut BitmapPass, words: &mut [u64], word: usize)
        requires own { IsPassOf self.now pass.old }
        requires inside { word < div_ceil self.now.len 64 }
        requires room { length words.old ≡ div_ceil self.now.len 64 }
        ensures pass { pass.new ≡ counting pass.old pass.new.counts.pages }
        ensures words { (bits : ℕ)
            × (words.new ≡ slice_set words.old word bits)
            × NoneBeyond self.now.len word bits
            × SettlesWord pass.old.counts word bits }
        ensures pages { ChangesRun (ByGathering words.new) pass.old.counts.pages pass.new.counts.pages
            (64 * word) (64 * word + 64) }
    {
        words[word] = self.gather(pass, word);
    }

    // Gathers all marks into `words`.
    fn take_all(&self, pass: &mut BitmapPass, words: &mut [u64])
        requires own { IsPassOf self.now pass.old }
        requires room { length words.old ≡ div_ceil self.now.len 64 }
        requires clear { (p : ℕ) → page_bit words.old p ≡ 0 }
        ensures pass { pass.new ≡ counting pass.old pass.new.counts.pages }
        ensures count { length words.new ≡ length words.old }
        ensures past { (p : ℕ) → self.now.len ≤ p → page_bit words.new p ≡ 0 }
        ensures pages { ChangesRun (ByGathering words.new) pass.old.counts.pages pass.new.counts.pages 0
            self.now.len }
        ensures whole { SettlesAll pass.old.counts words.new }
    {
        let mut i = 0;
        while i < words.len() {
            self.take_into(pass, words, i);
            i += 1;
        }
    }

    /// Returns all marks and clears them, in one step for each word. Page p is bit p mod 64 of word p / 64
    /// (vm-memory's `AtomicBitmap::get_and_reset`). AllocError if an allocation fails: no mark is cleared.
    pub fn get_and_reset(
        &self,
        alloc: Global,
        pass: &mut BitmapPass,
    ) -> Result<Vec<u64>, AllocError>
        requires { IsPassOf self.now pass.old }
        ensures err { OnErr result (pass.new ≡ pass.old) }
        ensures pass { pass.new ≡ counting pass.old pass.new.counts.pages }
        ensures count { IfOk result (λ words. vec_len words ≡ div_ceil self.now.len 64) }
        ensures past { IfOk result (λ words. (p : ℕ) → self.now.len ≤ p → page_bit words.items p ≡ 0) }
        ensures pages { IfOk result (λ words. Changes (ByGathering words.items) (λ p. true)
            pass.old.counts.pages pass.new.counts.pages) }
        ensures whole { IfOk result (λ words. SettlesAll pass.old.counts words.items) }
        ensures own { IsPassOf self.now pass.new }
    {
        let mut words = vec![in alloc; 0; self.words()]?;
        self.take_all(pass, &mut words);
        Ok(words)
    }

    // Clears all marks, in one step for each word.
    fn clear_all(&self, pass: &mut BitmapPass)
        requires { IsPassOf self.now pass.old }
        ensures pass { pass.new ≡ counting pass.old pass.new.counts.pages }
        ensures pages { ChangesRun (ByClearing pass.old.counts) pass.old.counts.pages pass.new.counts.pages 0
            self.now.len }
    {
        let mut i = 0;
        while i < self.words() {
            self.gather(pass, i);
            i += 1;
        }
    }

    /// Clears all marks, in one step for each word (vm-memory's `AtomicBitmap::reset`).
    pub fn reset(&self, pass: &mut BitmapPass)
        requires { IsPassOf self.now pass.old }
        ensures pass { pass.new ≡ counting pass.old pass.new.counts.pages }
        ensures pages { Changes (ByClearing pass.old.counts) (λ p. true) pass.old.counts.pages
            pass.new.counts.pages }
        ensures own { IsPassOf self.now pass.new }
    {
        self.clear_all(pass);
    }
}
