//! Words with a summary: bit w mod 64 of summary word w / 64 is set exactly if word w isn't 0.

ghost use Rattle.std.specs.Prelude.{◌≡◌, ◌≢◌, ℕ, ◌+◌, ◌*◌, ◌/◌, ◌^◌, ◌<◌, ◌≤◌, nat_lt, true, false, length};
ghost use Rattle.std.specs.Prelude.{slice_index, replicate, if◌then◌else◌};
ghost use Rattle.std.specs.Int.{bit_at};
ghost use Rattle.vm_bitmaps.specs.Summary.{IsFirstSet, IsNextSet, IsSummary};
ghost use Rattle.vm_bitmaps.specs.Words.{WritesRun, page_bit};

use crate::page_words::{write_in_word, write_run};

// The index of the lowest set bit of a word.
#[inline]
fn lowest_bit(word: u64) -> usize
    requires { 0 < word }
    ensures below { result < 64 }
    ensures set { bit_at word result ≡ 1 }
    ensures lowest { (k : ℕ) → k < result → bit_at word k ≡ 0 }
{
    word.trailing_zeros() as usize
}

// The first page from `from` on whose bit is set, in the word of page `from`.
#[inline]
pub(crate) fn first_in_word(words: &[u64], from: usize) -> Option<usize>
    requires { from / 64 < length words.now }
    ensures { IsFirstSet words.now from (64 * (from / 64) + 64) result }
{
    let rest = words[from / 64] >> (from % 64);
    if rest == 0 {
        None
    } else {
        Some(from + lowest_bit(rest))
    }
}

// The first page from `from` on whose bit is set.
fn next_set(words: &[u64], from: usize) -> Option<usize>
    requires { 64 * length words.now ≤ 2 ^ 64 }
    ensures { IsNextSet words.now from result }
{
    if from / 64 >= words.len() {
        return None;
    }
    if let Some(page) = first_in_word(words, from) {
        return Some(page);
    }
    for word in from / 64 + 1..words.len() {
        if let Some(page) = first_in_word(words, 64 * word) {
            return Some(page);
        }
    }
    None
}

// The same for words with a summary. After the word of page `from` it reads at most one word, which isn't 0.
pub(crate) fn next_page(words: &[u64], summary: &[u64], from: usize) -> Option<usize>
    requires summary { IsSummary words.now summary.now }
    requires fits { length words.now ≤ 2 ^ 58 }
    ensures { IsNextSet words.now from result }
{
    if from / 64 >= words.len() {
        return None;
    }
    if let Some(page) = first_in_word(words, from) {
        return Some(page);
    }
    let Some(word) = next_set(summary, from / 64 + 1) else {
        return None;
    };
    first_in_word(words, 64 * word)
}

// Sets the summary bit of a word.
#[inline]
fn tell_one(summary: &mut [u64], word: usize)
    requires { word < 64 * length summary.old }
    ensures { WritesRun summary.old summary.new word (word + 1) true }
{
    write_in_word(summary, word / 64, word % 64, word % 64 + 1, true);
}

// Sets the summary bit of a word if the word isn't 0.
#[inline]
fn tell(words: &[u64], summary: &mut [u64], word: usize)
    requires inside { word < length words.now }
    requires room { word < 64 * length summary.old }
    ensures reported { page_bit summary.new word ≡ (if nat_lt 0 (slice_index words.now word) then 1
        else page_bit summary.old word) }
    ensures others { (w : ℕ) → w ≢ word → page_bit summary.new w ≡ page_bit summary.old w }
{
    if words[word] != 0 {
        tell_one(summary, word);
    }
}

// Marks the pages from `first` to `last`, included.
#[inline]
pub(crate) fn mark_run(words: &mut [u64], summary: &mut [u64], first: usize, last: usize)
    requires ordered { first ≤ last }
    requires within { last < 64 * length words.old }
    requires summary { IsSummary words.old summary.old }
    ensures run { WritesRun words.old words.new first (last + 1) true }
    ensures summary { IsSummary words.new summary.new }
{
    let head = first / 64;
    let tail = last / 64;
    if head != tail {
        write_run(words, first, last, true);
        write_run(summary, head, tail, true);
        return;
    }
    let was = words[head];
    write_run(words, first, last, true);
    if was == 0 {
        tell_one(summary, head);
    }
}

// Clears the pages from `first` to `last`, included.
pub(crate) fn clear_run(words: &mut [u64], summary: &mut [u64], first: usize, last: usize)
    requires ordered { first ≤ last }
    requires within { last < 64 * length words.old }
    requires summary { IsSummary words.old summary.old }
    ensures run { WritesRun words.old words.new first (last + 1) false }
    ensures summary { IsSummary words.new summary.new }
{
    write_run(words, first, last, false);
    write_run(summary, first / 64, last / 64, false);
    tell(words, summary, first / 64);
    tell(words, summary, last / 64);
}

// Sets all words to 0. It writes only those that aren't 0.
pub(crate) fn clear_words(words: &mut [u64], summary: &mut [u64])
    requires summary { IsSummary words.old summary.old }
    requires fits { length words.old ≤ 2 ^ 58 }
    ensures words { words.new ≡ replicate (length words.old) 0 }
    ensures summary { summary.new ≡ replicate (length summary.old) 0 }
{
    let mut from = 0;
    while let Some(word) = next_set(summary, from) {
        words[word] = 0;
        from = word + 1;
    }
    summary.fill(0);
}
