//! Runs of pages in words: page p is bit p mod 64 of word p / 64.

ghost use Rattle.std.specs.Prelude.{◌≡◌, ℕ, ◌+◌, ◌-◌, ◌*◌, ◌^◌, ◌++◌, ◌<◌, ◌≤◌, length, take, drop};
ghost use Rattle.std.specs.Prelude.{replicate, slice_index, IfOk};
ghost use Rattle.vm_bitmaps.specs.Words.{WritesBits, WritesRun};

use std::alloc::{AllocError, Global};

/// `count` words of 64 bits, all zero. AllocError if the allocation fails.
pub fn zeros(alloc: Global, count: usize) -> Result<Vec<u64>, AllocError>
    ensures { IfOk result (λ words. words.items ≡ replicate count 0) }
{
    let words = vec![in alloc; 0; count]?;
    Ok(words)
}

// A zero word for each word of `words`, from its allocator. AllocError if the allocation fails.
pub(crate) fn zeros_like(words: &Vec<u64>) -> Result<Vec<u64>, AllocError>
    ensures zeros { IfOk result (λ zeros. zeros.items ≡ replicate (length words.now.items) 0) }
    ensures fits { (i : ℕ) → slice_index words.now.items i < 2 ^ 64 }
{
    zeros(*words.allocator(), words.len())
}

/// The word whose bits from `from` up to `to`, excluded, are 1.
#[inline]
pub fn mask(from: usize, to: usize) -> u64
    requires ordered { from < to }
    requires within { to ≤ 64 }
    ensures { result ≡ 2 ^ to - 2 ^ from }
{
    (u64::MAX >> (64 - (to - from))) << from
}

// The word with its bits from `from` up to `to`, excluded, set to the mark.
#[inline]
fn written(word: u64, from: usize, to: usize, mark: bool) -> u64
    requires ordered { from < to }
    requires within { to ≤ 64 }
    ensures { WritesBits word result from to mark }
{
    let run = mask(from, to);
    if mark { word | run } else { word & !run }
}

// Sets the bits from `from` up to `to`, excluded, of one word to the mark.
#[inline]
pub(crate) fn write_in_word(words: &mut [u64], index: usize, from: usize, to: usize, mark: bool)
    requires inside { index < length words.old }
    requires ordered { from < to }
    requires within { to ≤ 64 }
    ensures { WritesRun words.old words.new (64 * index + from) (64 * index + to) mark }
{
    words[index] = written(words[index], from, to, mark);
}

// Sets each word from `from` up to `to`, excluded, to `word`.
fn fill_words(words: &mut [u64], from: usize, to: usize, word: u64)
    requires ordered { from ≤ to }
    requires within { to ≤ length words.old }
    ensures { words.new ≡ take from words.old ++ replicate (to - from) word ++ drop to words.old }
{
    words[from..to].fill(word);
}

// Sets all bits of the words from `from` up to `to`, excluded, to the mark.
fn write_whole_words(words: &mut [u64], from: usize, to: usize, mark: bool)
    requires ordered { from ≤ to }
    requires within { to ≤ length words.old }
    ensures { WritesRun words.old words.new (64 * from) (64 * to) mark }
{
    fill_words(words, from, to, if mark { u64::MAX } else { 0 });
}

// Sets the bits of the pages from `first` to `last`, included, to the mark.
#[inline]
pub(crate) fn write_run(words: &mut [u64], first: usize, last: usize, mark: bool)
    requires ordered { first ≤ last }
    requires within { last < 64 * length words.old }
    ensures run { WritesRun words.old words.new first (last + 1) mark }
    ensures old_fits { (w : ℕ) → slice_index words.old w < 2 ^ 64 }
    ensures fits { (w : ℕ) → slice_index words.new w < 2 ^ 64 }
{
    let head = first / 64;
    let tail = last / 64;
    if head == tail {
        write_in_word(words, head, first % 64, last % 64 + 1, mark);
    } else {
        write_in_word(words, head, first % 64, 64, mark);
        write_whole_words(words, head + 1, tail, mark);
        write_in_word(words, tail, 0, last % 64 + 1, mark);
    }
}
