//! The record of a device and its queues.

ghost use Rattle.std.specs.Prelude.{◌≡◌, ◌⊎◌, ◌≤◌, All, Err, IfErr, IfOk, IfSome, None, OnOk, false};
ghost use Rattle.std.specs.Prelude.{length, map, true};
ghost use Rattle.fs_chain.specs.declared.error.ChainError.TheVariants.{BadArgument, ChainInFlight};
ghost use Rattle.fs_chain.specs.declared.error.ChainError.TheVariants.{OutOfMemory};
ghost use Rattle.memory_requests.specs.Refused.{RoomWasRefused};
ghost use Rattle.fs_record.specs.Record.{HasKnownBits};
ghost use Rattle.fs_chain_c.specs.Queues.{IsQueue};
ghost use Rattle.fs_chain_c.specs.Records.{FitRecord, HasNoneOut, HasUnfit, RefusesToSave, RefusesQueues};
ghost use Rattle.fs_chain_c.specs.Records.{Restores, SavesSo, numbers_over, queue_of, restored_over};
ghost use Rattle.fs_chain_c.specs.Records.{saved_status};

use crate::device::FsDevice;
use crate::queue::FsQueue;
use crate::record_place::record_of;
use crate::saved_bytes::SavedBytes;
use crate::status::{BAD_DEVICE, StatusRefusal};
use bitflags::Flags;
use fs_chain::ChainError;
use fs_queue::Queue;
use fs_record::restore_record;
use fuse_base::FsOptions;
use memory_requests::list_with_room;
use std::alloc::Global;

/// The most queues of a record.
const MOST_QUEUES: usize = 64;

/// The status of a refused record is this much more than the refusal's number.
const OF_RECORD: u32 = 80;

// The queue that a record keeps of some numbers: `BadArgument` if they aren't a queue's, `ChainInFlight` if a
// chain is in flight.
fn queue_of(queue: &FsQueue) -> Result<Queue, ChainError>
    ensures ok { IfOk result (λ q. q ≡ queue_of queue.now) }
    ensures is { OnOk result (IsQueue queue.now × HasNoneOut queue.now) }
    ensures bad { result ≡ Err BadArgument → IsQueue queue.now → ⊥ }
    ensures out { result ≡ Err ChainInFlight → HasNoneOut queue.now → ⊥ }
    ensures err { IfErr result (λ e. (e ≡ BadArgument) ⊎ (e ≡ ChainInFlight)) }
{
    let Some(checked) = queue.checked() else {
        return Err(ChainError::BadArgument);
    };
    if queue.in_flight() != 0 {
        return Err(ChainError::ChainInFlight);
    }
    Ok(Queue::resume(checked.layout, queue.next_avail, queue.stopped != 0))
}

// Why a record can't keep a queue; None if it can.
fn queue_refusal(queue: &FsQueue) -> Option<StatusRefusal>
    ensures is { result ≡ None → IsQueue queue.now }
    ensures none_out { result ≡ None → HasNoneOut queue.now }
    ensures refused { IfSome result (RefusesToSave queue.now) }
{
    if queue.checked().is_none() {
        return Some(StatusRefusal::Invalid(queue.refusal()));
    }
    if queue.in_flight() > 0 {
        return Some(StatusRefusal::Of(ChainError::ChainInFlight));
    }
    None
}

// Why a record can't keep these queues: the reason of the first that it can't keep; None if it can.
fn queues_refusal(queues: &[FsQueue]) -> Option<StatusRefusal>
    ensures are { result ≡ None → All IsQueue queues.now }
    ensures none_out { result ≡ None → All HasNoneOut queues.now }
    ensures refused { IfSome result (RefusesQueues queues.now) }
{
    for queue in queues {
        if let Some(why) = queue_refusal(queue) {
            return Some(why);
        }
    }
    None
}

// The queues that a record keeps, in the same order.
fn queues_of(alloc: Global, queues: &[FsQueue]) -> Result<Vec<Queue>, ChainError>
    ensures ok { IfOk result (λ made. made.items ≡ map queue_of queues.now) }
    ensures are { OnOk result (All IsQueue queues.now) }
    ensures none_out { OnOk result (All HasNoneOut queues.now) }
    ensures bad { result ≡ Err BadArgument → All IsQueue queues.now → ⊥ }
    ensures out { result ≡ Err ChainInFlight → All HasNoneOut queues.now → ⊥ }
    ensures err { IfErr result (λ e. (e ≡ BadArgument)
        ⊎ (e ≡ ChainInFlight)
        ⊎ ((e ≡ OutOfMemory) × RoomWasRefused (length queues.now))) }
{
    let Ok(mut made) = list_with_room(alloc, queues.len()) else {
        return Err(ChainError::OutOfMemory);
    };
    for queue in queues {
        match queue_of(queue) {
            Ok(queue) => made.push(queue).unwrap(),
            Err(error) => return Err(error),
        }
    }
    Ok(made)
}

// The options with these bits; None if one of them is no option's.
fn options_of(bits: u64) -> Option<FsOptions>
    ensures some { IfSome result (λ o. (o.0 ≡ bits) × HasKnownBits bits) }
    ensures none { result ≡ None → HasKnownBits bits → ⊥ }
{
    let options = FsOptions::from_bits_truncate(bits);
    if options.bits() == bits {
        Some(options)
    } else {
        None
    }
}

/// Writes the record to the front of a buffer, and returns its length.
pub fn save(
    alloc: Global,
    device: &FsDevice,
    queues: &[FsQueue],
    buffer: &mut [u8],
) -> (usize, Option<StatusRefusal>)
    ensures { SavesSo device.now queues.now buffer.old result.1 result.0 buffer.new }
{
    if !device.is_lawful() {
        return (0, Some(StatusRefusal::Invalid(BAD_DEVICE)));
    }
    if queues.is_empty() || queues.len() > MOST_QUEUES {
        return (0, Some(StatusRefusal::Of(ChainError::BadArgument)));
    }
    let Some(options) = options_of(device.options) else {
        return (0, Some(StatusRefusal::Of(ChainError::BadArgument)));
    };
    if let Some(why) = queues_refusal(queues) {
        return (0, Some(why));
    }
    let queues = match queues_of(alloc, queues) {
        Ok(queues) => queues,
        Err(error) => return (0, Some(StatusRefusal::Of(error))),
    };
    let record = record_of(options, &queues, device.page_size, device.limit);
    let bytes = record.bytes.as_slice();
    let len = bytes.len();
    if len > buffer.len() {
        return (len, Some(StatusRefusal::Of(ChainError::ShortBuffer)));
    }
    buffer[..len].copy_from_slice(bytes);
    (len, None)
}

/// The status of a saved record.
pub fn saved_status(refused: Option<StatusRefusal>) -> u32
    ensures { result ≡ saved_status refused }
{
    match refused {
        Some(why) => why.status(),
        None => 0,
    }
}

// The numbers of a queue that is reset from a record, over its earlier ones.
fn numbers_over(old: &FsQueue, queue: &Queue) -> FsQueue
    ensures { result ≡ numbers_over old.now queue.now }
{
    let layout = queue.layout();
    FsQueue {
        desc: layout.desc(),
        avail: layout.avail(),
        used: layout.used(),
        size: layout.size(),
        next_avail: queue.position(),
        next_used: queue.position(),
        max_in_flight: old.max_in_flight,
        stopped: u16::from(queue.is_stopped()),
        pushing: 0,
        event_index: old.event_index,
        reset_count: old.reset_count.wrapping_add(1),
        pop_count: old.pop_count,
    }
}

// Writes the numbers of a record's queues over the first of some.
fn put_queues(queues: &mut [FsQueue], restored: &[Queue])
    requires { length restored.now ≤ length queues.old }
    ensures { queues.new ≡ restored_over queues.old restored.now }
{
    for k in 0..restored.len() {
        queues[k] = numbers_over(&queues[k], &restored[k]);
    }
}

// The status of the first queue that doesn't fit a record: more chains may be in flight than it then has
// descriptors, or its `event_index` is neither 0 nor 1. None if each fits.
fn unfit_status(queues: &[FsQueue], restored: &[Queue]) -> Option<u32>
    requires { length restored.now ≤ length queues.now }
    ensures fit { result ≡ None → FitRecord queues.now restored.now }
    ensures unfit { IfSome result (HasUnfit queues.now restored.now) }
{
    for k in 0..restored.len() {
        let over = numbers_over(&queues[k], &restored[k]);
        if over.checked().is_none() {
            return Some(over.refusal());
        }
    }
    None
}

/// Reads a record into the device's options and the queues, and returns how many queues it has.
pub fn restore(
    alloc: Global,
    device: &mut FsDevice,
    queues: &mut [FsQueue],
    saved: &[u8],
    count: &mut usize,
) -> u32
    ensures { Restores device.old queues.old saved.now result count.new device.new queues.new }
{
    *count = 0;
    if !device.is_lawful() {
        return BAD_DEVICE;
    }
    let mut source = SavedBytes(saved);
    match restore_record(alloc, &mut source, device.page_size, device.limit) {
        Ok((options, restored)) => {
            if restored.len() > queues.len() {
                *count = restored.len();
                return u32::from(ChainError::ShortBuffer.number());
            }
            if let Some(status) = unfit_status(queues, &restored) {
                return status;
            }
            *count = restored.len();
            put_queues(queues, &restored);
            device.options = options.bits();
            0
        }
        Err(error) => OF_RECORD + u32::from(error.number()),
    }
}
