//! A walk that asks for a stretch of a table.

ghost use Rattle.std.specs.Prelude.{◌≡◌, ◌+◌, ◌*◌, ◌<◌, ◌≤◌, ◌^◌};
ghost use Rattle.fs_queue.specs.Chain.{entry_address};
ghost use Rattle.fs_queue.specs.SteppingView.{visit_of};

use fs_queue::ChainWalk;

/// The most entries that a load of an indirect table has: 4096 bytes.
pub(crate) const MOST_ENTRIES: u16 = 256;

/// The most entries that a load of the queue's own table has: 64 bytes.
pub(crate) const MOST_OWN_ENTRIES: u16 = 4;

/// The bytes of a table's entry.
pub(crate) const ENTRY_LEN: usize = 16;

/// A walk that asks for a stretch of a table: the entry that it needs next, and some that follow it.
#[derive(Debug, Drop)]
pub struct EntriesWalk {
    pub(crate) head: u16,
    pub(crate) walk: ChainWalk,
    pub(crate) entries: u16,
    pub ghost some: { 0 < entries },
    pub ghost few: { entries ≤ 256 },
    pub ghost inside: { walk.index + entries ≤ walk.table.entries },
}

impl EntriesWalk {
    // The guest address of the stretch, which ends below 2^64.
    pub(crate) fn address(&self) -> u64
        ensures address { result ≡ entry_address (visit_of self.now.walk) }
        ensures fits { result + 16 * self.now.entries < 2 ^ 64 }
    {
        self.walk.address()
    }

    // How many bytes it has.
    pub(crate) fn len(&self) -> usize
        ensures len { result ≡ 16 * self.now.entries }
        ensures few { result ≤ 4096 }
    {
        ENTRY_LEN * usize::from(self.entries)
    }
}
