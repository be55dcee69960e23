//! The state under the lock: the machine, the state in which it started, and the journal of all events.

ghost use Rattle.std.specs.Prelude.{◌≡◌, ◌<◌, ◌+◌, ◌++◌, ◌∷◌, ◌==◌, [], true, length, vec_len, vec_capacity};
ghost use Rattle.fs_device.specs.MachineView.{machine_of};
ghost use Rattle.fs_shared.specs.Portion.{counted};
ghost use Rattle.fs_shared.specs.Replay.{forget, Replays};
ghost use Rattle.fs_shared.specs.Held.{fixed_of, journal_of, start_of};
ghost use Rattle.fs_shared.specs.Laws.{HoldsReplay};

use crate::entry::{JournalEntry, Parts, Start};
use crate::share::Share;
use fs_device::Machine;
use fs_queue::Taken;
use fuse_fs::FileSystem;
use std::alloc::Global;
use std::marker::Model;
use std::sync::ledger::{Book, Ledger};
use vm_memory::Iommu;

/// The machine, its start, and the journal. The journal replays from the start to the machine's state, and
/// the shares' counts add up to its length.
#[derive(Drop)]
pub struct SharedState<L: Ledger, F, I: Iommu + Drop> {
    pub(crate) machine: Machine<F, I>,
    pub(crate) start: Start,
    pub(crate) journal: Vec<JournalEntry>,
    pub(crate) calls: Book<L>,
    // Scratch memory for the chain of a kick, kept from kick to kick.
    pub(crate) taken: Taken,
}

impl<L: Ledger, F, I: Iommu + Drop> Model for SharedState<L, F, I> {
    ghost use Rattle.std.specs.Prelude.{◌≡◌, vec_len};
    ghost use Rattle.fs_device.specs.MachineView.{machine_of};
    ghost use Rattle.fs_shared.specs.Replay.{Replays, forget};
    ghost use Rattle.fs_shared.specs.Held.{Held, fixed_of, journal_of, start_of};

    ghost Value = { Held F };

    ghost view = { λ s. record {
      machine = machine_of s.machine;
      start = start_of s.start (fixed_of (machine_of s.machine));
      journal = journal_of s.journal.items;
    } };

    ghost invariant = { λ s. Replays (start_of s.start (fixed_of (machine_of s.machine)))
        (journal_of s.journal.items) (forget (machine_of s.machine))
        × (s.calls.total ≡ vec_len s.journal) };
}

// Appends an entry to a journal with spare capacity, counts it, and returns its number.
pub(crate) fn append<L: Ledger>(
    journal: &mut Vec<JournalEntry>,
    calls: &mut Book<L>,
    share: &mut Share<L>,
    entry: JournalEntry,
) -> usize
    requires { vec_len journal.old < vec_capacity journal.old }
    ensures journal { journal.new.items ≡ journal.old.items ++ entry ∷ [] }
    ensures len { vec_len journal.new ≡ vec_len journal.old + 1 }
    ensures number { result ≡ vec_len journal.old }
    ensures total { calls.new.total ≡ calls.old.total + 1 }
    ensures share { share.new ≡ counted share.old true }
{
    let number = journal.len();
    journal.push_reserved(entry);
    share.add(calls);
    number
}

impl<L: Ledger, F: FileSystem, I: Iommu + Drop> SharedState<L, F, I> {
    // The state with an empty journal.
    pub(crate) fn begin(
        alloc: Global,
        machine: Machine<F, I>,
        start: Start,
        calls: Book<L>,
    ) -> SharedState<L, F, I>
        requires start { start_of start (fixed_of (machine_of machine)) ≡ forget (machine_of machine) }
        requires none { calls.total ≡ 0 }
        ensures { result
            ≡ record { machine = machine_of machine; start = forget (machine_of machine); journal = [] } }
    {
        SharedState {
            machine,
            start,
            journal: Vec::new(alloc),
            calls,
            taken: Taken::empty(alloc),
        }
    }

    /// Whether a share's count is the journal's length. `SharedDevice::into_parts` succeeds exactly then. It
    /// is so if the share has every part.
    pub fn is_counted(&mut self, share: &mut Share<L>) -> bool
        ensures state { self.new ≡ self.old }
        ensures share { share.new ≡ share.old }
        ensures count { result ≡ (share.old.count == length self.old.journal) }
        ensures whole { share.old.parts ≡ L.parts → result ≡ true }
        ensures replays { HoldsReplay self.new }
    {
        let entries = self.journal.len();
        share.is_of(&mut self.calls, entries as u64)
    }

    // The machine, its start and its journal. The journal replays from the start to the machine.
    pub(crate) fn open(self) -> Parts<F, I>
        ensures replays { Replays (start_of result.start (fixed_of (machine_of result.machine)))
            (journal_of result.journal.items)
            (forget (machine_of result.machine)) }
        ensures machine { machine_of result.machine ≡ self.machine }
        ensures start { start_of result.start (fixed_of (machine_of result.machine)) ≡ self.start }
        ensures journal { journal_of result.journal.items ≡ self.journal }
    {
        let SharedState {
            machine,
            start,
            journal,
            ..
        } = self;
        Parts {
            machine,
            start,
            journal,
        }
    }
}
