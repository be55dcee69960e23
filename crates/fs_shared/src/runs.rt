//! Runs of consecutive bytes, each within one page.

ghost use Rattle.std.specs.Prelude.{◌≡◌, ◌↔◌, ◌≤◌, ◌<◌, ◌+◌, ◌^◌, ◌++◌, [], ℕ, IfOk, List, OnOk};
ghost use Rattle.std.specs.Prelude.{length, map, take, vec_capacity, vec_len};
ghost use Rattle.std.specs.List.{Contains};
ghost use Rattle.std.specs.List.Sorted.{IsStrictlyIncreasing};
ghost use Rattle.vm_memory_core.specs.Host.{Place, lengths};
ghost use Rattle.vm_memory_core.specs.Window.{places, places_of};
ghost use Rattle.fs_shared.specs.Pages.{ArePagesOf, page_of};

use crate::numbers::first_page;
use smallvec::SmallVec;
use std::alloc::{AllocError, Global};
use vm_bitmaps::PAGE_SIZE;
use vm_memory_core::{HostBlocks, VolatileSlice};

/// Consecutive bytes of some windows that lie in one page of a block.
#[derive(Clone, Copy, Debug, Default, PartialEq, Eq)]
pub struct PageRun {
    /// The page's number: pages of 4096 bytes are numbered block by block.
    pub page: usize,
    /// The number of bytes of the windows before the run.
    pub from: usize,
}

/// Runs in order; the first two take no allocation.
pub type PageRuns = SmallVec<PageRun, 2>;

ghost use Rattle.fs_shared.specs.Runs.{AreRuns, begun};

// Adds the runs of a window that has `from` bytes before it.
fn push_runs<H: HostBlocks>(
    host: &H,
    runs: &mut PageRuns,
    from: usize,
    window: VolatileSlice,
) -> Result<(), AllocError>
    requires { from + window.len < 2 ^ 64 }
    ensures { (before : List ℕ) → length before ≡ from → AreRuns before runs.old.items →
        OnOk result (AreRuns (before ++ map (page_of (lengths (H.host host.now))) (places_of window))
        runs.new.items) }
{
    let first = first_page(host, window.block())?;
    let mut done = 0;
    while done < window.len() {
        let offset = window.block_offset() + done;
        let count = (PAGE_SIZE - offset % PAGE_SIZE).min(window.len() - done);
        let Some(page) = first.checked_add(offset / PAGE_SIZE) else {
            return Err(AllocError);
        };
        runs.push(PageRun {
            page,
            from: from + done,
        })?;
        done += count;
    }
    Ok(())
}

/// The runs of the bytes of some windows, in order. AllocError if an allocation fails.
pub fn page_runs<H: HostBlocks>(
    alloc: Global,
    host: &H,
    windows: &[VolatileSlice],
) -> Result<PageRuns, AllocError>
    requires { length (places windows.now) < 2 ^ 64 }
    ensures { IfOk result
        (λ runs. AreRuns (map (page_of (lengths (H.host host.now))) (places windows.now)) runs.items) }
{
    let mut runs = PageRuns::new(alloc);
    let mut from = 0;
    for window in windows {
        push_runs(host, &mut runs, from, *window)?;
        from += window.len();
    }
    Ok(runs)
}

// Adds the pages of the runs that begin within the first `count` bytes. The list has capacity for all runs.
fn push_begun(pages: &mut Vec<usize>, runs: &[PageRun], count: usize)
    requires { vec_len pages.old + length runs.now ≤ vec_capacity pages.old }
    ensures items { pages.new.items ≡ pages.old.items ++ begun count runs.now }
    ensures len { vec_len pages.new ≤ vec_len pages.old + length runs.now }
    ensures capacity { vec_capacity pages.new ≡ vec_capacity pages.old }
{
    for run in runs {
        if run.from < count {
            pages.push_reserved(run.page);
        }
    }
}

// Sorts page numbers in ascending order, and removes duplicates.
fn sort_pages(pages: &mut Vec<usize>)
    ensures ascending { IsStrictlyIncreasing pages.new.items }
    ensures all { (page : ℕ) → Contains pages.new.items page ↔ Contains pages.old.items page }
    ensures len { vec_len pages.new ≤ vec_len pages.old }
{
    pages.sort_unstable();
    pages.dedup();
}

/// Fills an empty list with the pages of the first `first_count` bytes of one list of runs and the first
/// `last_count` bytes of another, ascending, each once. The list has capacity for all runs.
pub fn written_pages(
    pages: &mut Vec<usize>,
    first: &[PageRun],
    first_count: usize,
    last: &[PageRun],
    last_count: usize,
)
    requires empty { pages.old.items ≡ [] }
    requires fits { length first.now + length last.now ≤ vec_capacity pages.old }
    ensures len { vec_len pages.new ≤ length first.now + length last.now }
    ensures pages { (block_lengths : List ℕ) (firsts lasts : List Place)
        → AreRuns (map (page_of block_lengths) firsts) first.now
        →
        AreRuns (map (page_of block_lengths) lasts) last.now
        →
        ArePagesOf block_lengths (take first_count firsts ++ take last_count lasts) pages.new.items }
{
    push_begun(pages, first, first_count);
    push_begun(pages, last, last_count);
    sort_pages(pages);
}
