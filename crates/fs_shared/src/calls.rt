//! The calls on the state under the lock. Each is one event: it is journaled and returns a receipt, or it
//! changes nothing.

ghost use Rattle.std.specs.Prelude.{◌≡◌, IfErr, List, OnOk, Err, false, vec_len};
ghost use Rattle.fs_shared.specs.Portion.{counted};
ghost use Rattle.fs_device.specs.MachineView.{machine_of};
ghost use Rattle.plain_machine.specs.Run.{GuestWrite, SetLayout};
ghost use Rattle.plain_machine.specs.Step.{State};
ghost use Rattle.fs_shared.specs.Calls.{JournalsOrRefuses, KicksBy, ReadsBy, did, did_kick};
ghost use Rattle.fs_shared.specs.Held.{HasOpenQueue, journal_of};
ghost use Rattle.fs_shared.specs.Keeping.{KickKeeps};
ghost use Rattle.fs_shared.specs.Laws.{HoldsReplay};
ghost use Rattle.fs_shared.specs.Replay.{ReplayEntry};

use crate::acting::{layout_recorded, write_recorded};
use crate::entry::{JournalEntry, Kicked, Receipt};
use crate::kicking::kick_recorded;
use crate::recorded::journal_recorded;
use crate::share::Share;
use crate::state::SharedState;
use fs_device::{Answer, DeviceError, Machine, Refusal};
use fs_queue::{QueueError, Taken};
use fuse_fs::FileSystem;
use std::alloc::Global;
use std::sync::ledger::{Book, Ledger};
use vm_memory::{GuestMemoryMmap, Iommu};
use vm_memory_core::Permissions;

// Whether a queue can be served. NoSuchQueue if the device has no such queue, Stopped if it is stopped.
fn takes_chains<F: FileSystem, I: Iommu + Drop>(
    machine: &Machine<F, I>,
    queue: usize,
) -> Result<(), DeviceError>
    ensures open { OnOk result (HasOpenQueue (machine_of machine.now) queue) }
    ensures closed { IfErr result
        (λ e. KickKeeps F.may (machine_of machine.now) queue (Err e) (machine_of machine.now)) }
{
    match machine.device.queue(queue) {
        Some(queue) => {
            if queue.is_stopped() {
                return Err(DeviceError::Queue(QueueError::Stopped));
            }
            Ok(())
        }
        None => Err(DeviceError::NoSuchQueue),
    }
}

// The result of a kick whose journal entry couldn't be allocated: `Idle` if the queue offers nothing, else
// `OutOfMemory`.
fn kick_without_room<F: FileSystem, I: Iommu + Drop>(
    alloc: Global,
    machine: &Machine<F, I>,
    queue: usize,
) -> Result<Kicked, DeviceError>
    requires { HasOpenQueue (machine_of machine.now) queue }
    ensures kick { (start : State (Unit {0})) (journal : List ReplayEntry) →
        KicksBy F.may (record { machine = machine_of machine.now; start = start; journal = journal })
        queue result
        (record { machine = machine_of machine.now; start = start; journal = journal }) }
    ensures none { did_kick result ≡ false }
{
    let Some(there) = machine.device.queue(queue) else {
        // The device has the queue, by the precondition.
        unreachable!()
    };
    if there.is_idle(alloc, &machine.host, &machine.mem) {
        return Ok(Kicked::Idle);
    }
    Err(DeviceError::Queue(QueueError::OutOfMemory))
}

// Serves the next chain of a machine's queue, and journals the outcome. The entry's memory is reserved before
// a chain is taken.
fn kick_into<L: Ledger, F: FileSystem, I: Iommu + Drop>(
    alloc: Global,
    machine: &mut Machine<F, I>,
    journal: &mut Vec<JournalEntry>,
    calls: &mut Book<L>,
    share: &mut Share<L>,
    queue: usize,
    taken: &mut Taken,
) -> Result<Kicked, DeviceError>
    ensures kick { (start : State (Unit {0})) →
        KicksBy F.may
        (record { machine = machine_of machine.old; start = start; journal = journal_of journal.old.items })
        queue result
        (record { machine = machine_of machine.new; start = start; journal = journal_of journal.new.items }) }
    ensures total { calls.old.total ≡ vec_len journal.old → calls.new.total ≡ vec_len journal.new }
    ensures share { share.new ≡ counted share.old (did_kick result) }
{
    if let Err(error) = takes_chains(machine, queue) {
        return Err(error);
    }
    if journal.reserve(1).is_err() {
        return kick_without_room(alloc, machine, queue);
    }
    match kick_recorded(alloc, machine, queue, taken) {
        Ok(Some(recorded)) => {
            let options = machine.device.server().options();
            Ok(Kicked::Done(journal_recorded(journal, calls, share, options, recorded)))
        }
        Ok(None) => Ok(Kicked::Idle),
        Err(error) => Err(error),
    }
}

// Writes a guest's bytes, and journals the write. The entry's memory is reserved before anything is written.
#[tactic(auto, using(crate::proofs::ActLemmas::write_refused))]
fn write_into<L: Ledger, F: FileSystem, I: Iommu + Drop>(
    alloc: Global,
    machine: &mut Machine<F, I>,
    journal: &mut Vec<JournalEntry>,
    calls: &mut Book<L>,
    share: &mut Share<L>,
    addr: u64,
    bytes: &[u8],
) -> Result<Receipt, Refusal>
    ensures write { (start : State (Unit {0})) →
        JournalsOrRefuses F.may
        (record { machine = machine_of machine.old; start = start; journal = journal_of journal.old.items })
        (GuestWrite addr bytes.now) result
        (record { machine = machine_of machine.new; start = start; journal = journal_of journal.new.items }) }
    ensures total { calls.old.total ≡ vec_len journal.old → calls.new.total ≡ vec_len journal.new }
    ensures share { share.new ≡ counted share.old (did result) }
{
    if !machine.reaches(addr, bytes.len(), Permissions::Write) {
        return Err(Refusal::NoPlace);
    }
    if journal.reserve(1).is_err() {
        return Err(Refusal::OutOfMemory);
    }
    match write_recorded(alloc, machine, addr, bytes) {
        Ok(recorded) => {
            let options = machine.device.server().options();
            Ok(journal_recorded(journal, calls, share, options, recorded))
        }
        Err(_) => Err(Refusal::OutOfMemory),
    }
}

// Replaces the layout, and journals the change. The entry's memory is reserved before anything changes.
#[tactic(auto, using(crate::proofs::ActLemmas::layout_refused))]
fn layout_into<L: Ledger, F: FileSystem, I: Iommu + Drop>(
    alloc: Global,
    machine: &mut Machine<F, I>,
    journal: &mut Vec<JournalEntry>,
    calls: &mut Book<L>,
    share: &mut Share<L>,
    layout: GuestMemoryMmap,
) -> Result<Receipt, Refusal>
    ensures layout { (start : State (Unit {0})) →
        JournalsOrRefuses F.may
        (record { machine = machine_of machine.old; start = start; journal = journal_of journal.old.items })
        (SetLayout layout) result
        (record { machine = machine_of machine.new; start = start; journal = journal_of journal.new.items }) }
    ensures total { calls.old.total ≡ vec_len journal.old → calls.new.total ≡ vec_len journal.new }
    ensures share { share.new ≡ counted share.old (did result) }
{
    if !machine.host.holds(&layout) {
        return Err(Refusal::UnknownBlock);
    }
    if journal.reserve(1).is_err() {
        return Err(Refusal::OutOfMemory);
    }
    match layout_recorded(alloc, machine, layout) {
        Ok(recorded) => {
            let options = machine.device.server().options();
            Ok(journal_recorded(journal, calls, share, options, recorded))
        }
        Err(_) => Err(Refusal::OutOfMemory),
    }
}

impl<L: Ledger, F: FileSystem, I: Iommu + Drop> SharedState<L, F, I> {
    /// Serves the next chain of a queue, by its number from 0 (VIRTIO 1.2, 2.7.13 and 2.7.8). The memory for
    /// entry and receipt is allocated before the file system is called. A refusal that stops the queue is
    /// journaled too. `Idle`, `NoSuchQueue`, `Stopped` and `OutOfMemory` change nothing.
    pub fn kick(
        &mut self,
        alloc: Global,
        share: &mut Share<L>,
        queue: usize,
    ) -> Result<Kicked, DeviceError>
        ensures kick { KicksBy F.may self.old queue result self.new }
        ensures replays { HoldsReplay self.new }
        ensures share { share.new ≡ counted share.old (did_kick result) }
    {
        kick_into(
            alloc,
            &mut self.machine,
            &mut self.journal,
            &mut self.calls,
            share,
            queue,
            &mut self.taken,
        )
    }

    /// The guest writes bytes from a physical address on, and the write is journaled. NoPlace if the range
    /// isn't wholly in guest memory, then OutOfMemory. An error changes nothing.
    pub fn guest_write(
        &mut self,
        alloc: Global,
        share: &mut Share<L>,
        addr: u64,
        bytes: &[u8],
    ) -> Result<Receipt, Refusal>
        ensures write { JournalsOrRefuses F.may self.old (GuestWrite addr bytes.now) result self.new }
        ensures replays { HoldsReplay self.new }
        ensures share { share.new ≡ counted share.old (did result) }
    {
        write_into(
            alloc,
            &mut self.machine,
            &mut self.journal,
            &mut self.calls,
            share,
            addr,
            bytes,
        )
    }

    /// Replaces all regions, and journals the change. UnknownBlock if the host doesn't have a region's block
    /// with that length, then OutOfMemory. An error changes nothing.
    pub fn set_layout(
        &mut self,
        alloc: Global,
        share: &mut Share<L>,
        layout: GuestMemoryMmap,
    ) -> Result<Receipt, Refusal>
        ensures layout { JournalsOrRefuses F.may self.old (SetLayout layout) result self.new }
        ensures replays { HoldsReplay self.new }
        ensures share { share.new ≡ counted share.old (did result) }
    {
        layout_into(
            alloc,
            &mut self.machine,
            &mut self.journal,
            &mut self.calls,
            share,
            layout,
        )
    }

    /// The guest reads `len` bytes from a physical address on. NoPlace if the range isn't wholly in guest
    /// memory, or OutOfMemory. Nothing changes, and nothing is journaled.
    pub fn guest_read(&mut self, alloc: Global, addr: u64, len: usize) -> Result<Vec<u8>, Refusal>
        ensures same { self.new ≡ self.old }
        ensures read { ReadsBy F.may self.old addr len result }
        ensures replays { HoldsReplay self.new }
    {
        match self.machine.guest_read(alloc, addr, len) {
            Answer::Bytes(bytes) => Ok(bytes),
            Answer::Refused(refusal) => Err(refusal),
            _ => unreachable!(),
        }
    }
}
