//! A machine behind one lock, which threads share.

ghost use Rattle.std.specs.Prelude.{◌≡◌, ℕ, ◌+◌, ◌/◌, ◌<◌, ◌≤◌, IfErr, IfNone, IfOk, IfSome, IsOk, OnErr};
ghost use Rattle.std.specs.Prelude.{length, true};
ghost use Rattle.std.specs.Int.{div_ceil};
ghost use Rattle.vm_bitmaps.specs.Words.{page_bit};
ghost use Rattle.vm_atomic_bitmaps.specs.Counts.{both_passes, met_with};
ghost use Rattle.vm_atomic_bitmaps.specs.Passes.{counting};
ghost use Rattle.vm_atomic_bitmaps.specs.Steps.{SettlesAll};
ghost use Rattle.fs_shared.specs.Portion.{HasSeen, IsShareOf, MarksPages, counted, joined, recorded_pass};
ghost use Rattle.fs_shared.specs.Portion.{new_pass};
ghost use Rattle.fs_device.specs.CommandView.{command_of};
ghost use Rattle.fs_device.specs.MachineView.{machine_of};
ghost use Rattle.plain_machine.specs.Run.{GuestWrite, Kick, SetLayout};
ghost use Rattle.fs_shared.specs.Calls.{did, did_kick};
ghost use Rattle.fs_shared.specs.Held.{fixed_of, journal_of, start_of};
ghost use Rattle.fs_shared.specs.JournalPages.{DiffersWithin, joined_pages};
ghost use Rattle.fs_shared.specs.Replay.{Replays, forget};
ghost use Rattle.fs_shared.specs.Shared.{ActsSome, IfDone, KicksSome, ReadsGuest};

use crate::entry::{Kicked, Parts, Receipt};
use crate::harvest::{PageHarvest, clear_pages};
use crate::share::Share;
use crate::share_error::ShareError;
use crate::start::started;
use crate::state::SharedState;
use fs_device::{DeviceError, Machine, Refusal};
use fuse_fs::FileSystem;
use std::alloc::Global;
use std::marker::Model;
use std::sync::ledger::{Blank, Ledger};
use std::sync::{Arc, Mutex, Wait};
use vm_atomic_bitmaps::AtomicBitmap;
use vm_memory::{GuestMemoryMmap, Iommu};

/// A machine that threads share, each with a share of a ledger `L` (`std::sync::ledger`). Each call is one
/// event, done whole under one lock, which the call waits for. Threads that call at once take turns, in no
/// promised order. After it releases the lock and before it returns, the call marks the pages that it wrote,
/// in a bitmap of the host's pages. Contracts name this bitmap.
#[derive(Drop)]
pub struct SharedDevice<L: Ledger, F, I: Iommu + Drop> {
    state: Mutex<SharedState<L, F, I>>,
    bitmap: Arc<AtomicBitmap, Global>,
}

impl<L: Ledger, F, I: Iommu + Drop> Model for SharedDevice<L, F, I> {
    ghost use Rattle.std.specs.Arc.{arc_value};
    ghost use Rattle.vm_atomic_bitmaps.specs.Passes.{SharedPages};

    ghost Value = { SharedPages };

    ghost view = { λ d. arc_value d.bitmap };
}

ghost use Rattle.fs_shared.specs.Marks.{AccountsFor, AccountsSince, HasPagesOf, IsHarvestOf, LeavesMarked};
ghost use Rattle.fs_shared.specs.Marks.{first_of, kicked_pages, pages_of_result};
ghost use Rattle.fs_shared.specs.declared.share_error.ShareError.TheVariants.{OutOfMemory};

impl<L: Ledger, F: FileSystem, I: Iommu + Drop> SharedDevice<L, F, I> {
    /// A device over a machine, with an empty journal, a share with every part of a new ledger, and a harvest
    /// that has gathered nothing. `parts` is the number of the ledger's parts, at least 1. Copies the host.
    /// The journal grows without bound: a long-running caller takes the device apart now and then, and makes
    /// a new one. The only error is OutOfMemory, which returns blank and machine.
    pub fn new(
        alloc: Global,
        blank: Blank,
        parts: u64,
        machine: Machine<F, I>,
    ) -> Result<(SharedDevice<L, F, I>, Share<L>, PageHarvest), (ShareError, Blank, Machine<F, I>)>
        requires name { blank.name ≡ L.name }
        requires ledger { blank.parts ≡ L.parts }
        requires parts { blank.parts ≡ parts }
        requires some { 0 < parts }
        ensures pages { IfOk result (λ made. HasPagesOf machine.host made.0) }
        ensures whole { IfOk result
            (λ made. made.1 ≡ record { parts = L.parts; count = 0; pass = recorded_pass (first_of made.0) }) }
        ensures own { IfOk result (λ made. IsShareOf made.0 made.1) }
        ensures harvest { IfOk result
            (λ made. made.2 ≡ record { bitmap = made.0; pass = new_pass (first_of made.0) }) }
        ensures refused { IfErr result (λ back. back.0 ≡ OutOfMemory) }
        ensures blank { IfErr result (λ back. back.1 ≡ blank) }
        ensures machine { IfErr result (λ back. back.2 ≡ machine) }
    {
        let (Ok(start), Ok((bitmap, pass, harvest))) = (
            started(alloc, &machine),
            clear_pages(alloc, &machine.host),
        ) else {
            return Err((ShareError::OutOfMemory, blank, machine));
        };
        let (calls, token) = blank.open::<L>();
        let share = Share::new(parts, token, pass);
        let state = Mutex::new(SharedState::begin(alloc, machine, start, calls));
        Ok((SharedDevice { state, bitmap }, share, harvest))
    }

    /// Splits off half of a share's parts, rounded down, with count 0 and half of its pass. None if the share
    /// has one part, and then nothing changes.
    pub fn split_share(&self, share: &mut Share<L>) -> Option<Share<L>>
        requires { IsShareOf self.now share.old }
        ensures half { IfSome result
            (λ s. s ≡ record { parts = share.old.parts / 2; count = 0; pass = new_pass share.old.pass }) }
        ensures rest { IfSome result (λ s. share.new.parts + s.parts ≡ share.old.parts) }
        ensures count { share.new.count ≡ share.old.count }
        ensures pass { IfSome result (λ s. share.new.pass ≡ recorded_pass share.old.pass) }
        ensures one { IfNone result (share.old.parts ≡ 1) }
        ensures same { IfNone result (share.new ≡ share.old) }
        ensures own { IsShareOf self.now share.new }
        ensures own_half { IfSome result (λ s. IsShareOf self.now s) }
    {
        share.split(&self.bitmap)
    }

    /// Adds another share's parts, count and pass to a share.
    pub fn join_share(&self, share: &mut Share<L>, other: Share<L>)
        requires own { IsShareOf self.now share.old }
        requires other { IsShareOf self.now other }
        ensures share { share.new ≡ joined share.old other }
        ensures own { IsShareOf self.now share.new }
    {
        share.join(&self.bitmap, other);
    }

    /// A share takes over a harvest's knowledge: every mark and clear that the harvest has seen, so also its
    /// own gathers (`AtomicBitmap::meet_pass`). It always succeeds, returns true, and waits for no lock. The
    /// pages in receipts of the share's later calls are then marked after those gathers
    /// (`laws::law_marks_since`).
    pub fn meet(&self, share: &mut Share<L>, harvest: &mut PageHarvest) -> bool
        requires share { IsShareOf self.now share.old }
        requires harvest { IsHarvestOf self.now harvest.old }
        ensures met { result ≡ true }
        ensures share { share.new ≡ record share.old {
          pass = counting share.old.pass (met_with harvest.old.pass.counts.pages share.old.pass.counts.pages);
        } }
        ensures harvest { harvest.new ≡ harvest.old }
        ensures seen { (word : ℕ) → HasSeen word harvest.old.pass.counts.pages share.new.pass.counts.pages }
        ensures own { IsShareOf self.now share.new }
    {
        share.meet(&self.bitmap, &mut harvest.pass)
    }

    /// Serves the next chain of a queue, by its number from 0 (`SharedState::kick`, also for the errors). A
    /// call that is journaled is counted by the share, and the share's pass marks its pages.
    pub fn kick<R: Wait>(
        &self,
        rt: &R,
        alloc: Global,
        share: &mut Share<L>,
        queue: usize,
    ) -> Result<Kicked, DeviceError>
        requires { IsShareOf self.now share.old }
        ensures does { KicksSome F.may queue result }
        ensures share { share.new ≡ record (counted share.old (did_kick result)) {
          pass = counting share.old.pass share.new.pass.counts.pages;
        } }
        ensures pages { MarksPages (kicked_pages result) share.old.pass.counts.pages
            share.new.pass.counts.pages }
        ensures own { IsShareOf self.now share.new }
        ensures command { IfOk result (IfDone (λ r. command_of r.command ≡ Kick queue 1)) }
    {
        let kicked = self.state.lock(rt).kick(alloc, share, queue);
        if let Ok(Kicked::Done(receipt)) = &kicked {
            share.mark(&self.bitmap, &receipt.pages);
        }
        kicked
    }

    /// The guest writes bytes from a physical address on (`SharedState::guest_write`, also for the errors).
    /// A call that is journaled is counted by the share, and the share's pass marks its pages.
    pub fn guest_write<R: Wait>(
        &self,
        rt: &R,
        alloc: Global,
        share: &mut Share<L>,
        addr: u64,
        bytes: &[u8],
    ) -> Result<Receipt, Refusal>
        requires { IsShareOf self.now share.old }
        ensures does { ActsSome F.may (GuestWrite addr bytes.now) result }
        ensures share { share.new ≡ record (counted share.old (did result)) {
          pass = counting share.old.pass share.new.pass.counts.pages;
        } }
        ensures pages { MarksPages (pages_of_result result) share.old.pass.counts.pages
            share.new.pass.counts.pages }
        ensures own { IsShareOf self.now share.new }
        ensures command { IfOk result (λ r. command_of r.command ≡ GuestWrite addr bytes.now) }
    {
        let written = self.state.lock(rt).guest_write(alloc, share, addr, bytes);
        if let Ok(receipt) = &written {
            share.mark(&self.bitmap, &receipt.pages);
        }
        written
    }

    /// Replaces all regions (`SharedState::set_layout`, also for the errors). A call that is journaled is
    /// counted by the share. It writes no pages, so the share's pass marks none.
    pub fn set_layout<R: Wait>(
        &self,
        rt: &R,
        alloc: Global,
        share: &mut Share<L>,
        layout: GuestMemoryMmap,
    ) -> Result<Receipt, Refusal>
        requires { IsShareOf self.now share.old }
        ensures does { ActsSome F.may (SetLayout layout) result }
        ensures share { share.new ≡ record (counted share.old (did result)) {
          pass = counting share.old.pass share.new.pass.counts.pages;
        } }
        ensures pages { MarksPages (pages_of_result result) share.old.pass.counts.pages
            share.new.pass.counts.pages }
        ensures own { IsShareOf self.now share.new }
        ensures command { IfOk result (λ r. command_of r.command ≡ SetLayout layout) }
    {
        let laid = self.state.lock(rt).set_layout(alloc, share, layout);
        if let Ok(receipt) = &laid {
            share.mark(&self.bitmap, &receipt.pages);
        }
        laid
    }

    /// The guest reads `len` bytes from a physical address on (`SharedState::guest_read`, also for the
    /// errors). Nothing is journaled.
    pub fn guest_read<R: Wait>(
        &self,
        rt: &R,
        alloc: Global,
        addr: u64,
        len: usize,
    ) -> Result<Vec<u8>, Refusal>
        ensures does { ReadsGuest F.may addr len result }
    {
        self.state.lock(rt).guest_read(alloc, addr, len)
    }

    /// The machine, its start and its journal, if the share's count is the journal's length
    /// (`SharedState::is_counted`). A share with every part always has this count. Otherwise the error
    /// returns device and share. The journal replays from the start to the machine. The page of each byte
    /// that differs between the two hosts is among the entries' pages.
    pub fn into_parts(
        self,
        share: Share<L>,
    ) -> Result<Parts<F, I>, (SharedDevice<L, F, I>, Share<L>)>
        ensures whole { share.parts ≡ L.parts → IsOk result }
        ensures count { IfOk result (λ p. share.count ≡ length p.journal.items) }
        ensures replays { IfOk result
            (λ p. Replays (start_of p.start (fixed_of (machine_of p.machine))) (journal_of p.journal.items)
            (forget (machine_of p.machine))) }
        ensures pages { IfOk result
            (λ p. DiffersWithin (joined_pages (journal_of p.journal.items)) p.start.host p.machine.host) }
        ensures device { IfErr result (λ back. back.0 ≡ self) }
        ensures back { IfErr result (λ back. back.1 ≡ share) }
    {
        let mut share = share;
        let SharedDevice { state, bitmap } = self;
        let mut state = state.into_inner();
        if state.is_counted(&mut share) {
            Ok(state.open())
        } else {
            let state = Mutex::new(state);
            Err((SharedDevice { state, bitmap }, share))
        }
    }

    /// As `into_parts`, and writes all pages that are still marked to `words`: page p is bit p mod 64 of word
    /// p / 64. The rest holds once each share that was split off is joined back. A page is set in the words
    /// exactly if it was marked more often than gathered. Suppose that `audit` accepts the receipts of all
    /// calls, and the share has marked their pages. Then each page of the bitmap in which the hosts differ is
    /// set, or the harvest gathered it. A page that was written after the last gather of its word is set if
    /// the share met the harvest in between (`laws::law_marks_since`). An error returns device, share and
    /// harvest, and leaves the words unchanged.
    pub fn into_parts_and_pages(
        self,
        share: Share<L>,
        harvest: PageHarvest,
        words: &mut [u64],
    ) -> Result<Parts<F, I>, (SharedDevice<L, F, I>, Share<L>, PageHarvest)>
        requires share { IsShareOf self share }
        requires harvest { IsHarvestOf self harvest }
        requires room { length words.old ≡ div_ceil self.len 64 }
        ensures whole { share.parts ≡ L.parts → IsOk result }
        ensures count { IfOk result (λ p. share.count ≡ length p.journal.items) }
        ensures replays { IfOk result
            (λ p. Replays (start_of p.start (fixed_of (machine_of p.machine))) (journal_of p.journal.items)
            (forget (machine_of p.machine))) }
        ensures pages { IfOk result
            (λ p. DiffersWithin (joined_pages (journal_of p.journal.items)) p.start.host p.machine.host) }
        ensures settles { IfOk result
            (λ p. SettlesAll (both_passes harvest.pass.counts share.pass.counts) words.new) }
        ensures past { IfOk result (λ p. (page : ℕ) → self.len ≤ page → page_bit words.new page ≡ 0) }
        ensures gathered { IfOk result
            (λ p. AccountsFor share.pass harvest p.journal.items p.start.host p.machine.host words.new) }
        ensures left { IfOk result (λ p. LeavesMarked share.pass harvest words.new) }
        ensures since { IfOk result (λ p. AccountsSince share.pass harvest p.journal.items
            (forget (machine_of p.machine)) words.new) }
        ensures room { length words.new ≡ length words.old }
        ensures back { IfErr result (λ back. (back.0 ≡ self) × (back.1 ≡ share) × (back.2 ≡ harvest)) }
        ensures same { OnErr result (words.new ≡ words.old) }
    {
        let mut share = share;
        let SharedDevice { state, bitmap } = self;
        let mut state = state.into_inner();
        if !state.is_counted(&mut share) {
            let state = Mutex::new(state);
            return Err((SharedDevice { state, bitmap }, share, harvest));
        }
        let mut harvest = harvest;
        harvest.take_in(share.into_pass());
        harvest.gather_all(words);
        Ok(state.open())
    }
}
