//! Exports for a device's queues: their start, their notifications, and the record of a move.

ghost use Rattle.fs_chain_c.specs.Queues.{BeginsQueue};
ghost use Rattle.fs_chain_c.specs.Records.{Restores, Saves};
ghost use Rattle.fs_chain_c.specs.Notifications.{SetsNotifying};

use fs_chain_c::device::FsDevice;
use fs_chain_c::handle::FsChain;
use fs_chain_c::notifications::{FsStore, set_notification};
use fs_chain_c::queue::FsQueue;
use fs_chain_c::record::{restore, save, saved_status};
use fs_chain_c::status::wrong_order;
use std::alloc::Global;

/// Resets a queue to a position, with the addresses and size that it has. Pops and chains from before are
/// refused from then on. C calls pk_queue_begin, which then gives the queue a number of its own
/// (tools/pk_numbers.c).
#[unsafe(no_mangle)]
pub extern "C" fn pk_queue_begin_unnumbered(queue: &mut FsQueue, next_avail: u16) -> u32
    ensures { BeginsQueue queue.old next_avail result queue.new }
{
    queue.begin(next_avail)
}

/// The store that enables (1) or disables (0) notifications of a queue, over a handle's regions.
#[unsafe(no_mangle)]
pub extern "C" fn pk_set_notification(
    alloc: Global,
    chain: &mut FsChain,
    queue: &FsQueue,
    enabled: u32,
    store: &mut FsStore,
) -> u32
    ensures { SetsNotifying chain.old.held.value queue.now enabled result store.new chain.new.held.value }
{
    let Some(handle) = chain.take(alloc) else {
        *store = FsStore::nothing();
        return wrong_order();
    };
    let (returned, status) = set_notification(&handle, queue, enabled);
    *store = returned;
    *chain = FsChain::of_box(handle);
    status
}

/// Writes the record of a device and its queues to the front of a buffer, and returns its length in bytes.
#[unsafe(no_mangle)]
pub extern "C" fn pk_save(
    alloc: Global,
    device: &FsDevice,
    queues: &[FsQueue],
    buffer: &mut [u8],
    len: &mut usize,
) -> u32
    ensures { Saves device.now queues.now buffer.old result len.new buffer.new }
{
    let (returned, refused) = save(alloc, device, queues, buffer);
    *len = returned;
    saved_status(refused)
}

/// Reads a record into the device's options and the queues, and returns how many queues it has. C calls
/// pk_restore, which then gives each of the queues a number of its own (tools/pk_numbers.c).
#[unsafe(no_mangle)]
pub extern "C" fn pk_restore_unnumbered(
    alloc: Global,
    device: &mut FsDevice,
    queues: &mut [FsQueue],
    saved: &[u8],
    count: &mut usize,
) -> u32
    ensures { Restores device.old queues.old saved.now result count.new device.new queues.new }
{
    restore(alloc, device, queues, saved, count)
}
