//! Calls of the exports that meet the hypotheses of `law_moves`. C doesn't call these.

ghost use Rattle.std.specs.Prelude.{◌≡◌, true, All, take};
ghost use Rattle.fs_chain_c.specs.Moving.{HasItsWidths, HasState};
ghost use Rattle.fs_chain_c.specs.MovesCalled.{MovesQueues, RestoresQueues, SavesQueues};
ghost use Rattle.fs_chain_c.specs.Records.{Restores};

use crate::queues::{pk_restore_unnumbered, pk_save};
use fs_chain_c::device::FsDevice;
use fs_chain_c::laws_moving::law_moves;
use fs_chain_c::queue::FsQueue;
use fs_chain_c::status::bad_argument;
use std::alloc::Global;

// Whether the numbers of each queue are valid.
fn are_queues(queues: &[FsQueue]) -> bool
    ensures are { result ≡ true → All HasState queues.now }
    ensures fit { result ≡ true → All HasItsWidths queues.now }
{
    for queue in queues {
        let _size = queue.size;
        let _next = queue.next_avail;
        let _used = queue.next_used;
        let Some(_state) = queue.checked() else {
            return false;
        };
    }
    true
}

/// Saves a device. The record is that of the core's queues, none of which has a chain in flight.
pub fn save_queues(
    alloc: Global,
    device: &FsDevice,
    queues: &[FsQueue],
    buffer: &mut [u8],
    len: &mut usize,
) -> u32
    ensures { result ≡ 0 → SavesQueues device.now queues.now buffer.old len.new buffer.new }
{
    law_moves();
    if !are_queues(queues) {
        return bad_argument();
    }
    pk_save(alloc, device, queues, buffer, len)
}

// Restores a device, and checks the numbers of its queues.
fn restore_valid(
    alloc: Global,
    device: &mut FsDevice,
    queues: &mut [FsQueue],
    saved: &[u8],
    count: &mut usize,
) -> u32
    ensures restores { result ≡ 0
        → Restores device.old queues.old saved.now 0 count.new device.new queues.new }
    ensures are { result ≡ 0 → All HasState (take count.new queues.new) }
{
    let status = pk_restore_unnumbered(alloc, device, queues, saved, count);
    if status != 0 {
        return status;
    }
    let restored = *count;
    if restored > queues.len() || !are_queues(&queues[..restored]) {
        return bad_argument();
    }
    0
}

/// Restores a device. The core's queues are reset from the record.
pub fn restore_queues(
    alloc: Global,
    device: &mut FsDevice,
    queues: &mut [FsQueue],
    saved: &[u8],
    count: &mut usize,
) -> u32
    ensures { result ≡ 0 → RestoresQueues device.new queues.new saved.now count.new }
{
    law_moves();
    restore_valid(alloc, device, queues, saved, count)
}

/// Moves a device: saves its record in a buffer, and restores another device from that buffer. Options and
/// queues there are those of the record.
pub fn move_queues(
    alloc: Global,
    device: &FsDevice,
    queues: &[FsQueue],
    there: &mut FsDevice,
    restored: &mut [FsQueue],
    buffer: &mut [u8],
    count: &mut usize,
) -> u32
    ensures { result ≡ 0 → MovesQueues device.now queues.now there.new restored.new count.new }
{
    law_moves();
    if !are_queues(queues) {
        return bad_argument();
    }
    let mut len = 0;
    let status = pk_save(alloc, device, queues, buffer, &mut len);
    if status != 0 {
        return status;
    }
    restore_valid(alloc, there, restored, buffer, count)
}
