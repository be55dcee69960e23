//! Calls of the exports that meet the hypotheses of `law_log`. C doesn't call these.

ghost use Rattle.std.specs.Prelude.{◌≡◌};
ghost use Rattle.fs_chain_c.specs.LogsCalled.{MarksReply, MarksUsed};
ghost use Rattle.fs_chain_c.specs.Ranges.{ReportsRanges};

use crate::chains::{pk_push, pk_reply_ranges};
use fs_chain_c::handle::FsChain;
use fs_chain_c::laws_moving::law_log;
use fs_chain_c::pushing::FsStores;
use fs_chain_c::queue::FsQueue;
use fs_chain_c::ranges::FsRange;
use std::alloc::Global;

/// Fills the ranges of a reply buffer from one of its bytes on, of at most `len` bytes. Their addresses are
/// the buffer's.
pub fn mark_reply(
    alloc: Global,
    chain: &mut FsChain,
    from: u64,
    len: u64,
    ranges: &mut [FsRange],
) -> usize
    ensures marks { MarksReply chain.old.held.value from result ranges.new }
    ensures fills { ReportsRanges chain.old.held.value from len ranges.old result chain.new.held.value
        ranges.new }
{
    law_log();
    pk_reply_ranges(alloc, chain, from, len, ranges)
}

/// Begins a push. The addresses of its element and index are those of the next used position.
pub fn mark_used(
    alloc: Global,
    chain: &mut FsChain,
    queue: &mut FsQueue,
    front: &mut [u8],
    stores: &mut FsStores,
) -> u32
    ensures { result ≡ 0 → MarksUsed queue.old stores.new }
{
    law_log();
    pk_push(alloc, chain, queue, front, stores)
}
