//! A walk from a queue's position through its next chain, by loads that the caller makes. It touches no
//! memory (VIRTIO 1.2, 2.7.5 and 2.7.6).

ghost use Rattle.std.specs.Prelude.{◌≡◌, ℕ, ◌+◌, ◌*◌, ◌<◌, ◌≤◌, IsTrue, ◌^◌, List, length, Some, true};

use crate::access::le16_number;
use crate::chain_walk::{ChainWalk, Progress};
use crate::fault::QueueError;
use crate::layout::QueueLayout;

/// A walk at a position of a queue: the load that it asks for next, or its result. The caller makes that
/// load once, by a copy. It passes the bytes, or None if one of their addresses isn't mapped.
#[derive(Debug, Drop)]
pub enum Walk {
    /// It asks for the available index.
    Index(IndexWalk),
    /// A chain is available, so it asks for the available ring's entry at its position.
    RingEntry(RingEntryWalk),
    /// A chain with this head is available: the walk continues through it.
    Chain(u16, Progress),
    /// No chain is available.
    Idle,
    /// The queue refuses its next chain.
    Refused(QueueError),
}

/// A walk that asks for the available index. `give` consumes it, so each load is made once.
#[derive(Debug, Drop)]
pub struct IndexWalk {
    layout: QueueLayout,
    position: u16,
}

/// A walk that asks for the available ring's entry at its position. `give` consumes it.
#[derive(Debug, Drop)]
pub struct RingEntryWalk {
    layout: QueueLayout,
    position: u16,
}

ghost use Rattle.fs_queue.specs.Queue.{avail_index_at, ring_entry_at};
ghost use Rattle.fs_queue.specs.Loads.{asks_entry};
ghost use Rattle.fs_queue.specs.Taking.{stops_queue};
ghost use Rattle.fs_queue.specs.RingingView.{by_index, by_entry, stage_of, stage_at, HasResult, BeginsAt};
ghost use Rattle.fs_queue.specs.RingingView.{BeginsChain, IfRingEntry, IfRefuses};
ghost use Rattle.fs_queue.specs.WalkingView.{at_position};

impl Walk {
    /// The walk at a position of a queue that isn't stopped: it asks for the available index.
    pub fn begin(layout: QueueLayout, position: u16) -> Walk
        ensures { BeginsAt layout position result }
    {
        Walk::Index(IndexWalk::new(layout, position))
    }
}

impl IndexWalk {
    /// The walk at a position of a queue that isn't stopped.
    pub(crate) fn new(layout: QueueLayout, position: u16) -> IndexWalk
        ensures layout { result.layout ≡ layout }
        ensures position { result.position ≡ position }
    {
        IndexWalk { layout, position }
    }

    /// The guest address of the two bytes that it asks for. They end below 2^64.
    pub fn address(&self) -> u64
        ensures at { result ≡ avail_index_at (at_position self.now.layout self.now.position) }
        ensures fits { result + 2 < 2 ^ 64 }
    {
        self.layout.avail() + 2
    }

    /// Takes the index's bytes, le16, or None if one of their addresses isn't mapped (VIRTIO 1.2, 2.7.6
    /// and 2.7.13). Refused: `AvailIndexUnreachable`, then `AvailTooFar`.
    #[inline(always)]
    pub fn give(self, came: Option<[u8; 2]>) -> Walk
        ensures stage { stage_of result ≡ stage_at (by_index (at_position self.layout self.position) came) }
        ensures same { IfRingEntry result (λ w. (w.layout ≡ self.layout) × (w.position ≡ self.position)) }
        ensures stops { IfRefuses result (λ e. IsTrue (stops_queue e)) }
        ensures chain { BeginsChain self.layout result }
    {
        let Some(bytes) = came else {
            return Walk::Refused(QueueError::AvailIndexUnreachable);
        };
        let waiting = le16_number(&bytes).wrapping_sub(self.position);
        if waiting == 0 {
            Walk::Idle
        } else if waiting > self.layout.size() {
            Walk::Refused(QueueError::AvailTooFar)
        } else {
            Walk::RingEntry(RingEntryWalk {
                layout: self.layout,
                position: self.position,
            })
        }
    }
}

impl RingEntryWalk {
    /// The guest address of the two bytes that it asks for. They end below 2^64.
    pub fn address(&self) -> u64
        ensures at { result ≡ ring_entry_at (at_position self.now.layout self.now.position) }
        ensures fits { result + 2 < 2 ^ 64 }
    {
        self.layout.avail() + u64::from(self.layout.entry_offset(self.position))
    }

    /// Takes the entry's bytes, le16, or None if one of their addresses isn't mapped. Refused:
    /// `RingEntryUnreachable`, then `HeadOutOfTable`.
    #[inline(always)]
    pub fn give(self, came: Option<[u8; 2]>) -> Walk
        ensures reports { (index : List ℕ)
            → length index ≡ 2
            → asks_entry (by_index (at_position self.layout self.position) (Some index)) ≡ true
            →
            stage_of result ≡ HasResult (by_entry (at_position self.layout self.position) (Some index) came) }
        ensures stops { IfRefuses result (λ e. IsTrue (stops_queue e)) }
        ensures chain { BeginsChain self.layout result }
    {
        let Some(bytes) = came else {
            return Walk::Refused(QueueError::RingEntryUnreachable);
        };
        let head = le16_number(&bytes);
        if head >= self.layout.size() {
            Walk::Refused(QueueError::HeadOutOfTable)
        } else {
            Walk::Chain(head, ChainWalk::begin(self.layout, head))
        }
    }
}
