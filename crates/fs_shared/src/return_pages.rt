//! The pages that a return of a chain writes (VIRTIO 1.2, 2.7.8).

ghost use Rattle.std.specs.Prelude.{◌≡◌, ◌≤◌, ◌+◌, [], length, map, IfOk, vec_len, vec_capacity};
ghost use Rattle.vm_memory_core.specs.Host.{lengths};
ghost use Rattle.fs_queue.specs.Windows.{TakenLiesIn, chain_places};
ghost use Rattle.fs_shared.specs.Pages.{page_of};
ghost use Rattle.fs_shared.specs.Runs.{AreRuns};

use crate::runs::{PageRuns, page_runs, written_pages};
use fs_queue::Taken;
use std::alloc::{AllocError, Global};
use vm_memory_core::HostBlocks;

// The bytes that a return writes besides the reply: a used element of 8, and the used index of 2.
const USED_LEN: usize = 10;

/// Runs of the bytes that a return of a chain may write, each run in one page: those of the reply buffer, and
/// those of the used element and the used index.
#[derive(Debug, Drop)]
pub(crate) struct ReturnRuns {
    pub room: PageRuns,
    pub used: PageRuns,
}

impl ReturnRuns {
    /// The most pages that a return may write: the number of runs. AllocError if it doesn't fit 64 bits: no
    /// memory has that many pages.
    pub(crate) fn most_pages(&self) -> Result<usize, AllocError>
        ensures { IfOk result (λ most. most ≡ length self.now.room.items + length self.now.used.items) }
    {
        self.room
            .len()
            .checked_add(self.used.len())
            .ok_or(AllocError)
    }
}

ghost use Rattle.fs_shared.specs.ReturnRuns.{AreReturnPages, AreReturnRuns};

// The runs of a chain's reply buffer, none for a faulty chain.
fn room_runs<H: HostBlocks>(alloc: Global, host: &H, taken: &Taken) -> Result<PageRuns, AllocError>
    ensures { IfOk result (λ runs.
        AreRuns (map (page_of (lengths (H.host host.now))) (chain_places taken.now.chain)) runs.items) }
{
    match taken.chain() {
        Ok(chain) => page_runs(alloc, host, &chain.writable),
        Err(_) => Ok(PageRuns::new(alloc)),
    }
}

/// The runs of the bytes that the return of this chain may write. AllocError if an allocation fails.
pub(crate) fn return_runs<H: HostBlocks>(
    alloc: Global,
    host: &H,
    taken: &Taken,
) -> Result<ReturnRuns, AllocError>
    requires { TakenLiesIn (lengths (H.host host.now)) taken.now }
    ensures { IfOk result (λ runs. AreReturnRuns (lengths (H.host host.now)) taken.now runs) }
{
    Ok(ReturnRuns {
        room: room_runs(alloc, host, taken)?,
        used: page_runs(alloc, host, taken.used_windows())?,
    })
}

/// Fills an empty list with the pages that a return with a reply of `reply_len` bytes writes. The list has
/// capacity for all runs, and there are no more pages than runs.
pub(crate) fn return_pages(pages: &mut Vec<usize>, runs: &ReturnRuns, reply_len: usize)
    requires empty { pages.old.items ≡ [] }
    requires fits { length runs.now.room.items + length runs.now.used.items ≤ vec_capacity pages.old }
    ensures len { vec_len pages.new ≤ length runs.now.room.items + length runs.now.used.items }
    ensures pages { AreReturnPages runs.now reply_len pages.new.items }
{
    written_pages(pages, &runs.room, reply_len, &runs.used, USED_LEN);
}
