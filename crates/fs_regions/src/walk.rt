//! A walk that asks for a load.

ghost use Rattle.std.specs.Prelude.{◌≡◌, ◌+◌, ◌<◌, ◌≤◌, ◌^◌};
ghost use Rattle.fs_regions.specs.Walks.{asked_entries, asked_len, asked_by};

use crate::entries::EntriesWalk;
use fs_queue::{IndexWalk, RingEntryWalk};

/// A walk that asks for a load. The bytes of the load use it up: each load is made once.
#[derive(Debug, Drop)]
pub enum QueueWalk {
    /// It asks for the available index.
    Index(IndexWalk),
    /// It asks for the available ring's entry.
    RingEntry(RingEntryWalk),
    /// It asks for a stretch of a table, in the chain of a head.
    Entries(EntriesWalk),
}

impl QueueWalk {
    /// The guest address of the bytes that it asks for, which end below 2^64.
    pub fn address(&self) -> u64
        ensures address { result ≡ asked_by self.now }
        ensures fits { result + asked_len self.now < 2 ^ 64 }
    {
        match self {
            QueueWalk::Index(walk) => walk.address(),
            QueueWalk::RingEntry(walk) => walk.address(),
            QueueWalk::Entries(walk) => walk.address(),
        }
    }

    /// The number of table entries that it asks for, whose descriptors may join the chain; 0 if it asks
    /// for part of the available ring.
    pub fn entries(&self) -> usize
        ensures entries { result ≡ asked_entries self.now }
        ensures few { result ≤ 256 }
    {
        match self {
            QueueWalk::Index(_) | QueueWalk::RingEntry(_) => 0,
            QueueWalk::Entries(walk) => usize::from(walk.entries),
        }
    }

    /// How many bytes it asks for: 2, or 16 for each of at most 256 entries of a table.
    pub fn len(&self) -> usize
        ensures len { result ≡ asked_len self.now }
        ensures few { result ≤ 4096 }
    {
        match self {
            QueueWalk::Index(_) | QueueWalk::RingEntry(_) => 2,
            QueueWalk::Entries(walk) => walk.len(),
        }
    }
}
