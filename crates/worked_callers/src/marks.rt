//! Two threads that mark pages of one bitmap and gather its marks, without a lock.

ghost use Rattle.std.specs.Prelude.{◌≡◌, IfOk};
ghost use Rattle.std.specs.NonZero.{non_zero_usize_get};
ghost use Rattle.vm_bitmaps.specs.Pages.{pages_of};
ghost use Rattle.vm_atomic_bitmaps.specs.Passes.{IsPassOf};
ghost use Rattle.worked_callers.specs.Marks.{AreMarked, HasHalf, HasWorked, IsFreshHalf, SettleTogether};

use std::alloc::{AllocError, Global};
use std::num::NonZeroUsize;
use std::thread::{Threads, join};
use vm_atomic_bitmaps::{AtomicBitmap, BitmapPass};

/// `len` bytes from `start` on.
#[derive(Clone, Copy, Debug)]
pub struct ByteRange {
    pub start: usize,
    pub len: usize,
}

/// The pages that each of two threads gathered, and the pages left marked, as words. Page p is bit p mod 64
/// of word p / 64.
#[derive(Drop)]
pub struct Account {
    pub first: Vec<u64>,
    pub second: Vec<u64>,
    pub left: Vec<u64>,
}

// A clear bitmap with two passes, each with half of all parts. AllocError if an allocation fails.
fn open(
    alloc: Global,
    byte_size: usize,
    page_size: NonZeroUsize,
) -> Result<(AtomicBitmap, BitmapPass, BitmapPass), AllocError>
    ensures size { IfOk result (λ r. r.0.page_size ≡ non_zero_usize_get page_size) }
    ensures len { IfOk result (λ r. r.0.len ≡ pages_of (non_zero_usize_get page_size) byte_size) }
    ensures own { IfOk result (λ r. IsPassOf r.0 r.1 × IsPassOf r.0 r.2) }
    ensures first { IfOk result (λ r. IsFreshHalf r.1.counts) }
    ensures second { IfOk result (λ r. IsFreshHalf r.2.counts) }
{
    let (bitmap, mut first) = AtomicBitmap::new(alloc, byte_size, page_size)?;
    let second = bitmap.split_pass(&mut first).unwrap();
    Ok((bitmap, first, second))
}

// A pass, and the words that it gathered; AllocError if an allocation fails.
type Gathered = Result<(BitmapPass, Vec<u64>), AllocError>;

// Marks the pages of a range, and then gathers all words once.
fn mark_and_gather(
    alloc: Global,
    bitmap: &AtomicBitmap,
    mut pass: BitmapPass,
    range: ByteRange,
) -> Gathered
    requires own { IsPassOf bitmap.now pass }
    requires fresh { IsFreshHalf pass.counts }
    ensures { IfOk result (λ r. HasWorked bitmap.now range r.0 r.1.items) }
{
    bitmap.set_addr_range(&mut pass, range.start, range.len);
    let gathered = bitmap.get_and_reset(alloc, &mut pass)?;
    Ok((pass, gathered))
}

// Two threads at once do this, each with a pass and a range of its own.
fn work_at_once<R: Threads>(
    rt: &R,
    alloc: Global,
    bitmap: &AtomicBitmap,
    first: BitmapPass,
    second: BitmapPass,
    one: ByteRange,
    other: ByteRange,
) -> (Gathered, Gathered)
    requires own { IsPassOf bitmap.now first × IsPassOf bitmap.now second }
    requires fresh { IsFreshHalf first.counts × IsFreshHalf second.counts }
    ensures first { IfOk result.0 (λ r. HasWorked bitmap.now one r.0 r.1.items) }
    ensures second { IfOk result.1 (λ r. HasWorked bitmap.now other r.0 r.1.items) }
{
    join(
        rt,
        move || mark_and_gather(alloc, bitmap, first, one),
        move || mark_and_gather(alloc, bitmap, second, other),
    )
}

// Joins the two passes and closes the bitmap. AllocError if an allocation fails.
fn settle(
    alloc: Global,
    bitmap: AtomicBitmap,
    mut first: BitmapPass,
    second: BitmapPass,
) -> Result<Vec<u64>, AllocError>
    requires first { IsPassOf bitmap first }
    requires second { IsPassOf bitmap second }
    requires halves { HasHalf first.counts × HasHalf second.counts }
    ensures { IfOk result (λ left. SettleTogether first.counts second.counts bitmap.len left.items) }
{
    bitmap.join_pass(&mut first, second);
    match bitmap.close(alloc, first) {
        Ok(left) => Ok(left),
        Err(_) => Err(AllocError),
    }
}

/// Two threads at once mark the pages of a range each, and then gather all words once. Each page was gathered
/// or is left exactly if a range has it: no mark is lost, and none is invented. AllocError if an allocation
/// fails.
pub fn mark_by_two<R: Threads>(
    rt: &R,
    alloc: Global,
    byte_size: usize,
    page_size: NonZeroUsize,
    one: ByteRange,
    other: ByteRange,
) -> Result<Account, AllocError>
    ensures { let size = non_zero_usize_get page_size in
        IfOk result (λ a. AreMarked size (pages_of size byte_size) one other a.first.items a.second.items
        a.left.items) }
{
    let (bitmap, first, second) = open(alloc, byte_size, page_size)?;
    let (first, second) = work_at_once(rt, alloc, &bitmap, first, second, one, other);
    let (pass, first) = first?;
    let (other_pass, second) = second?;
    let left = settle(alloc, bitmap, pass, other_pass)?;
    Ok(Account {
        first,
        second,
        left,
    })
}
