//! Callers of the theorems on a device that threads share: its own calls meet their premises.

ghost use Rattle.std.specs.Prelude.{◌≡◌, ◌≢◌, ℕ, ◌<◌, true, [], ◌∷◌, drop, take, IfOk, IfSome, length};
ghost use Rattle.std.specs.Int.{div_ceil};
ghost use Rattle.vm_atomic_bitmaps.specs.Counts.{IsWhole, both_passes};
ghost use Rattle.fuse_fs.specs.Calls.{Done, Forget};
ghost use Rattle.server_meanings.specs.Examples.{nobody};
ghost use Rattle.plain_machine.specs.Run.{SetLayout, with_layout};
ghost use Rattle.plain_machine.specs.Step.{Exchanged, State, Step};
ghost use Rattle.fs_device.specs.MachineView.{machine_of};
ghost use Rattle.fs_shared.specs.Held.{fixed_of, journal_of, start_of};
ghost use Rattle.fs_shared.specs.JournalPages.{DiffersWithin, joined_pages};
ghost use Rattle.fs_shared.specs.Laws.{HaveSamePart, HoldsReplay};
ghost use Rattle.fs_shared.specs.Marks.{HasMarked, HasMarkedSince, IsHarvestOf};
ghost use Rattle.fs_shared.specs.Portion.{IsShareOf};
ghost use Rattle.fs_shared.specs.Replay.{Anything, Plays, Replays, forget};
ghost use Rattle.fs_shared.specs.Replay as replay;
ghost use Rattle.law_callers.specs.Worked.{forget_exchange, forget_turn, forgotten, machine, small};
ghost use Rattle.law_callers.specs.Worked.{with_forget};

use fs_device::{DeviceError, Machine, Refusal};
use fs_shared::laws::{
    law_forgets, law_journal_pages, law_marks_since, law_marks_stay, law_passes_are_whole,
    law_replays,
};
use fs_shared::{
    Kicked, PageHarvest, Parts, Receipt, Share, ShareError, SharedDevice, SharedState,
};
use fuse_fs::FileSystem;
use std::alloc::Global;
use std::sync::Wait;
use std::sync::ledger::{Blank, Ledger};
use vm_memory::Iommu;

/// A guest writes, and then a chain is served: the journal of the first call, which replays, replays with the
/// second one's entry. The result is that of `SharedState::kick`.
pub fn write_and_kick<L: Ledger, F: FileSystem, I: Iommu + Drop>(
    state: &mut SharedState<L, F, I>,
    alloc: Global,
    share: &mut Share<L>,
    addr: u64,
    bytes: &[u8],
    queue: usize,
) -> Result<Kicked, DeviceError>
    ensures { HoldsReplay state.new }
{
    law_replays::<F>();
    let _ = state.guest_write(alloc, share, addr, bytes);
    state.kick(alloc, share, queue)
}

/// A chain is served, and then a guest writes. The result is that of `SharedState::guest_write`.
pub fn kick_and_write<L: Ledger, F: FileSystem, I: Iommu + Drop>(
    state: &mut SharedState<L, F, I>,
    alloc: Global,
    share: &mut Share<L>,
    addr: u64,
    bytes: &[u8],
    queue: usize,
) -> Result<Receipt, Refusal>
    ensures { HoldsReplay state.new }
{
    law_replays::<F>();
    let _ = state.kick(alloc, share, queue);
    state.guest_write(alloc, share, addr, bytes)
}

/// A guest writes twice, and the share meets the harvest: it has marked the pages of both receipts. An error
/// is that of `SharedDevice::guest_write`.
pub fn write_twice<L: Ledger, F: FileSystem, I: Iommu + Drop, R: Wait>(
    device: &SharedDevice<L, F, I>,
    rt: &R,
    alloc: Global,
    share: &mut Share<L>,
    harvest: &mut PageHarvest,
    addr: u64,
    bytes: &[u8],
) -> Result<(Receipt, Receipt), Refusal>
    requires share { IsShareOf device.now share.old }
    requires harvest { IsHarvestOf device.now harvest.old }
    ensures first { IfOk result (λ r. HasMarked share.new.pass.counts.pages (r.0 ∷ [])) }
    ensures second { IfOk result (λ r. HasMarked share.new.pass.counts.pages (r.1 ∷ [])) }
{
    law_marks_stay();
    let first = device.guest_write(rt, alloc, share, addr, bytes)?;
    let second = device.guest_write(rt, alloc, share, addr, bytes)?;
    device.meet(share, harvest);
    Ok((first, second))
}

/// A share is split, a guest writes with each half, and they are joined: the share has marked the pages of
/// both receipts. None if the share has one part, or an error is returned.
pub fn write_apart<L: Ledger, F: FileSystem, I: Iommu + Drop, R: Wait>(
    device: &SharedDevice<L, F, I>,
    rt: &R,
    alloc: Global,
    share: &mut Share<L>,
    addr: u64,
    bytes: &[u8],
) -> Option<(Receipt, Receipt)>
    requires { IsShareOf device.now share.old }
    ensures { IfSome result (λ r. HasMarked share.new.pass.counts.pages (r.0 ∷ r.1 ∷ [])) }
{
    law_marks_stay();
    let mut other = device.split_share(share)?;
    let first = device.guest_write(rt, alloc, share, addr, bytes);
    let second = device.guest_write(rt, alloc, &mut other, addr, bytes);
    device.join_share(share, other);
    match (first, second) {
        (Ok(first), Ok(second)) => Some((first, second)),
        _ => None,
    }
}

/// A share meets the harvest, a guest writes, a chain is served, and the harvest gathers a word. The written
/// pages of every other word are marked since that harvest's last gathers. An error is that of
/// `SharedDevice::guest_write`.
pub fn write_between_gathers<L: Ledger, F: FileSystem, I: Iommu + Drop, R: Wait>(
    device: &SharedDevice<L, F, I>,
    rt: &R,
    alloc: Global,
    share: &mut Share<L>,
    harvest: &mut PageHarvest,
    addr: u64,
    bytes: &[u8],
    queue: usize,
    word: usize,
) -> Result<Receipt, Refusal>
    requires share { IsShareOf device.now share.old }
    requires harvest { IsHarvestOf device.now harvest.old }
    requires word { word < div_ceil harvest.old.bitmap.len 64 }
    ensures since { IfOk result (λ r. (other first : ℕ)
        → other ≢ word
        → HasMarkedSince other first harvest.new.pass.counts.pages share.new.pass.counts.pages (r ∷ [])) }
    ensures earlier { IfOk result (λ r. (other first : ℕ)
        → r.number < first
        → HasMarkedSince other first harvest.new.pass.counts.pages share.new.pass.counts.pages (r ∷ [])) }
{
    law_marks_since();
    device.meet(share, harvest);
    let receipt = device.guest_write(rt, alloc, share, addr, bytes)?;
    let _ = device.kick(rt, alloc, share, queue);
    device.meet(share, harvest);
    let _ = harvest.gather(word);
    Ok(receipt)
}

/// Two shares meet the harvest, a guest writes with each, and they are joined: the pages of both receipts are
/// marked since the harvest's gathers. None if an error is returned.
pub fn write_apart_since<L: Ledger, F: FileSystem, I: Iommu + Drop, R: Wait>(
    device: &SharedDevice<L, F, I>,
    rt: &R,
    alloc: Global,
    share: &mut Share<L>,
    other: Share<L>,
    harvest: &mut PageHarvest,
    addr: u64,
    bytes: &[u8],
) -> Option<(Receipt, Receipt)>
    requires share { IsShareOf device.now share.old }
    requires other { IsShareOf device.now other }
    requires harvest { IsHarvestOf device.now harvest.old }
    ensures { IfSome result (λ r. (word first : ℕ)
        → HasMarkedSince word first harvest.new.pass.counts.pages share.new.pass.counts.pages
        (r.0 ∷ r.1 ∷ [])) }
{
    law_marks_since();
    let mut other = other;
    device.meet(share, harvest);
    device.meet(&mut other, harvest);
    let first = device.guest_write(rt, alloc, share, addr, bytes);
    let second = device.guest_write(rt, alloc, &mut other, addr, bytes);
    device.join_share(share, other);
    match (first, second) {
        (Ok(first), Ok(second)) => Some((first, second)),
        _ => None,
    }
}

/// A new device, whose share and harvest together have every part of the passes. Conditions and error are
/// those of `SharedDevice::new`.
pub fn make_whole<L: Ledger, F: FileSystem, I: Iommu + Drop>(
    alloc: Global,
    blank: Blank,
    parts: u64,
    machine: Machine<F, I>,
) -> Result<(SharedDevice<L, F, I>, Share<L>, PageHarvest), (ShareError, Blank, Machine<F, I>)>
    requires name { blank.name ≡ L.name }
    requires ledger { blank.parts ≡ L.parts }
    requires parts { blank.parts ≡ parts }
    requires some { 0 < parts }
    ensures { IfOk result (λ made. IsWhole (both_passes made.2.pass.counts made.1.pass.counts)) }
{
    law_passes_are_whole();
    SharedDevice::new(alloc, blank, parts, machine)
}

/// A share that is split and joined has the part of the passes that it had.
pub fn split_and_join<L: Ledger, F: FileSystem, I: Iommu + Drop>(
    device: &SharedDevice<L, F, I>,
    share: &mut Share<L>,
)
    requires { IsShareOf device.now share.old }
    ensures { HaveSamePart share.old.pass.counts share.new.pass.counts }
{
    law_passes_are_whole();
    match device.split_share(share) {
        Some(other) => device.join_share(share, other),
        None => {}
    }
}

/// The last entries of a device's journal have the pages of each byte that changed since they began. The
/// error is that of `SharedDevice::into_parts`.
pub fn audit_last<L: Ledger, F: FileSystem, I: Iommu + Drop>(
    device: SharedDevice<L, F, I>,
    share: Share<L>,
) -> Result<Parts<F, I>, (SharedDevice<L, F, I>, Share<L>)>
    ensures { IfOk result (λ p. (first : ℕ)
        → (since : State (Unit {0}))
        × Replays (start_of p.start (fixed_of (machine_of p.machine)))
        (take first (journal_of p.journal.items)) since
        × Replays since (drop first (journal_of p.journal.items)) (forget (machine_of p.machine))
        × DiffersWithin (joined_pages (drop first (journal_of p.journal.items))) since.memory.host
        (forget (machine_of p.machine)).memory.host) }
{
    law_journal_pages();
    device.into_parts(share)
}

/// A chain's step, and the removal of all regions, in the state without the file system.
pub fn forget_files<F: FileSystem>()
    ensures step { (before after : F)
        → F.may before (Forget nobody 5 3) Done after
        → Step Anything (forget (machine with_forget before)) 0 forget_turn.calls
        (Exchanged forget_exchange true) (forget (forgotten before after)) }
    ensures event { (files : F) → Plays Anything (forget (machine small files)) (SetLayout []) replay.Done []
        (forget (with_layout (machine small files) [])) }
{
    law_forgets::<F>();
}
