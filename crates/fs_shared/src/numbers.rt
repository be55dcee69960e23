//! The numbers of pages: the pages of a host are numbered block by block.

ghost use Rattle.std.specs.Prelude.{◌≡◌, IfOk};
ghost use Rattle.vm_memory_core.specs.Host.{lengths, page_count};
ghost use Rattle.fs_shared.specs.Pages.{first_page};

use std::alloc::AllocError;
use vm_bitmaps::PAGE_SIZE;
use vm_memory_core::HostBlocks;

// The number of pages of `len` bytes, of which the last may be partial.
fn page_count(len: usize) -> usize
    ensures { result ≡ page_count len }
{
    len / PAGE_SIZE + usize::from(len % PAGE_SIZE != 0)
}

/// The number of a block's first page. For the block past the last one it is the number of all pages.
/// AllocError if the host has fewer blocks, or if the number doesn't fit 64 bits: no memory is that large.
pub fn first_page<H: HostBlocks>(host: &H, block: usize) -> Result<usize, AllocError>
    ensures { IfOk result (λ first. first ≡ first_page (lengths (H.host host.now)) block) }
{
    let mut first: usize = 0;
    for number in 0..block {
        let Some(len) = host.block_len(number) else {
            return Err(AllocError);
        };
        let Some(next) = first.checked_add(page_count(len)) else {
            return Err(AllocError);
        };
        first = next;
    }
    Ok(first)
}
