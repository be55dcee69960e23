//! Queues as numbers that C keeps.

ghost use Rattle.std.specs.Prelude.{◌≡◌, ◌≤◌, ◌<◌, false, true, IfSome, IfNone, OnSome};
ghost use Rattle.fs_chain_c.specs.Queues.{BeginsQueue, IsBegun, IsQueueState, IsQueue, chains_in_flight, put};
ghost use Rattle.fs_chain_c.specs.Queues.{stop_number};
ghost use Rattle.fs_chain_c.specs.Statuses.{begun_status, queue_status};

use crate::status::{
    BAD_EVENT_INDEX, BAD_MAX_IN_FLIGHT, BAD_QUEUE_ALIGNMENT, BAD_QUEUE_END, BAD_QUEUE_SIZE,
    BAD_QUEUE_STATE, QUEUE_NOT_BEGUN,
};
use fs_chain::QueueState;
use fs_queue::{QueueError, QueueLayout, QueueLayoutError};

/// A queue: numbers that C keeps.
#[repr(C)]
#[derive(Clone, Copy)]
pub struct FsQueue {
    /// The guest address of its descriptor table.
    pub desc: u64,
    /// The guest address of its available ring.
    pub avail: u64,
    /// The guest address of its used ring.
    pub used: u64,
    /// How many descriptors it has.
    pub size: u16,
    /// The available ring position of the next pop, modulo 2^16.
    pub next_avail: u16,
    /// The used ring position of the next push, modulo 2^16.
    pub next_used: u16,
    /// How many chains may be in flight, up to its size: 0 counts as 1.
    pub max_in_flight: u16,
    /// The refusal that stopped it, from 2 to 8; 1 if a record was of a stopped queue; or 0.
    pub stopped: u16,
    /// Whether a push is under way: 0 or 1.
    pub pushing: u8,
    /// Whether VIRTIO_F_EVENT_IDX was agreed on: 0 or 1.
    pub event_index: u8,
    /// How often it was reset, modulo 2^32.
    pub reset_count: u32,
    /// How often a chain was popped or dropped, modulo 2^32.
    pub pop_count: u32,
}

// The refusal of a number of `stopped`, if there is one; 0 is none.
fn stop_of(number: u16) -> Option<Option<QueueError>>
    ensures some { IfSome result (λ stopped. (stop_number stopped ≡ number) × (number ≤ 8)) }
    ensures none { IfNone result (8 < number) }
{
    match number {
        0 => Some(None),
        1 => Some(Some(QueueError::Stopped)),
        2 => Some(Some(QueueError::AvailIndexUnreachable)),
        3 => Some(Some(QueueError::AvailTooFar)),
        4 => Some(Some(QueueError::RingEntryUnreachable)),
        5 => Some(Some(QueueError::HeadOutOfTable)),
        6 => Some(Some(QueueError::UsedUnreachable)),
        7 => Some(Some(QueueError::AvailFlagsUnreachable)),
        8 => Some(Some(QueueError::DescriptorUnreachable)),
        _ => None,
    }
}

// The number of the refusal that stopped a queue; 0 is none.
fn stop_number(stopped: &Option<QueueError>) -> u16
    ensures { result ≡ stop_number stopped.now }
{
    match stopped {
        Some(error) => u16::from(error.number()),
        None => 0,
    }
}

impl FsQueue {
    /// How many chains are in flight.
    pub fn in_flight(&self) -> u16
        ensures { result ≡ chains_in_flight self.now }
    {
        self.next_avail.wrapping_sub(self.next_used)
    }

    /// The queue as the core has it; None if these are no queue's numbers.
    #[inline(always)]
    pub fn checked(&self) -> Option<QueueState>
        ensures checked { IfSome result (IsQueueState self.now) }
        ensures is { OnSome result (IsQueue self.now) }
        ensures none { IfNone result (IsQueue self.now → ⊥) }
    {
        let Ok(layout) = QueueLayout::new(self.size, self.desc, self.avail, self.used) else {
            return None;
        };
        let Some(stopped) = stop_of(self.stopped) else {
            return None;
        };
        if self.in_flight() > self.size || self.max_in_flight > self.size {
            return None;
        }
        if self.pushing > 1 || self.event_index > 1 {
            return None;
        }
        Some(QueueState {
            layout,
            next_avail: self.next_avail,
            next_used: self.next_used,
            max_in_flight: self.max_in_flight.max(1),
            pushing: self.pushing == 1,
            reset_count: self.reset_count,
            pop_count: self.pop_count,
            event_index: self.event_index == 1,
            stopped,
        })
    }

    /// The same of a queue that was begun; None if its numbers were never set.
    #[inline(always)]
    pub fn begun(&self) -> Option<QueueState>
        ensures checked { IfSome result (IsQueueState self.now) }
        ensures is { OnSome result (IsBegun self.now) }
        ensures none { IfNone result (IsBegun self.now → ⊥) }
    {
        let Some(checked) = self.checked() else {
            return None;
        };
        if self.reset_count == 0 {
            return None;
        }
        Some(checked)
    }

    /// The status of numbers that aren't a queue's.
    #[cold]
    #[inline(never)]
    pub fn refusal(&self) -> u32
        ensures { result ≡ queue_status self.now }
    {
        match QueueLayout::new(self.size, self.desc, self.avail, self.used) {
            Err(QueueLayoutError::BadSize) => BAD_QUEUE_SIZE,
            Err(QueueLayoutError::Misaligned) => BAD_QUEUE_ALIGNMENT,
            Err(QueueLayoutError::EndOverflow) => BAD_QUEUE_END,
            Ok(_) => {
                if self.max_in_flight > self.size {
                    BAD_MAX_IN_FLIGHT
                } else if self.event_index > 1 {
                    BAD_EVENT_INDEX
                } else {
                    BAD_QUEUE_STATE
                }
            }
        }
    }

    /// The status of numbers that aren't those of a queue that was begun.
    #[cold]
    #[inline(never)]
    pub fn unbegun(&self) -> u32
        ensures { result ≡ begun_status self.now }
    {
        match self.reset_count {
            0 => QUEUE_NOT_BEGUN,
            _ => self.refusal(),
        }
    }

    /// Writes the numbers that a call changed to C's queue.
    pub fn put(&mut self, checked: &QueueState)
        ensures { self.new ≡ put self.old checked.now }
    {
        self.next_avail = checked.next_avail;
        self.next_used = checked.next_used;
        self.pushing = u8::from(checked.pushing);
        self.pop_count = checked.pop_count;
        self.stopped = stop_number(&checked.stopped);
    }

    /// Resets the queue to a position, if its numbers are a queue's then: no chain of it is in flight.
    /// Returns a status.
    pub fn begin(&mut self, position: u16) -> u32
        ensures { BeginsQueue self.old position result self.new }
    {
        let mut fresh = *self;
        fresh.next_avail = position;
        fresh.next_used = position;
        fresh.pushing = 0;
        fresh.reset_count = self.reset_count.wrapping_add(1);
        fresh.stopped = 0;
        if fresh.checked().is_none() {
            return fresh.refusal();
        }
        *self = fresh;
        0
    }
}
