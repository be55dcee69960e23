//! A guest's write and a change of the layout. Each event is made twice: for the journal and for the receipt.
//! All memory for both is allocated before anything changes.

ghost use Rattle.std.specs.Prelude.{◌≡◌, [], true, IfOk, OnErr, length};
ghost use Rattle.vm_iotlb.specs.declared.permissions.Permissions.TheVariants.{Write};
ghost use Rattle.vm_memory.specs.Memory.{addresses, memory_of, physical, reach};
ghost use Rattle.plain_machine.specs.Run.{GuestWrite, SetLayout};
ghost use Rattle.fs_device.specs.CommandView.{command_of};
ghost use Rattle.fs_device.specs.MachineView.{machine_of};
ghost use Rattle.fs_shared.specs.Held.{WouldDo, came_of};
ghost use Rattle.fs_shared.specs.Keeping.{KeepsEvent};
ghost use Rattle.fs_shared.specs.Replay.{Done, WritesPages};

use crate::entry::Outcome;
use crate::recorded::{Event, Recorded};
use crate::runs::{page_runs, written_pages};
use fs_device::{Command, Machine};
use fuse_fs::FileSystem;
use std::alloc::{AllocError, Global};
use vm_memory::{GuestMemory, GuestMemoryMmap, Iommu};
use vm_memory_core::{GuestAddress, HostBlocks, Permissions, Windows};

// The pages of the `len` bytes from a physical address on. The range is wholly in guest memory.
fn write_pages<H: HostBlocks>(
    alloc: Global,
    host: &H,
    layout: &GuestMemoryMmap,
    addr: u64,
    len: usize,
) -> Result<Vec<usize>, AllocError>
    requires { reach (memory_of (H.host host.now) layout.now) Write addr len ≡ true }
    ensures { IfOk result
        (λ pages. WritesPages (memory_of (H.host host.now) layout.now) (addresses addr len) pages.items) }
{
    let mut windows = Windows::new(alloc);
    layout.push_windows(
        alloc,
        host,
        GuestAddress(addr),
        len,
        Permissions::Write,
        &mut windows,
    )?;
    let runs = page_runs(alloc, host, &windows)?;
    let mut pages = Vec::with_capacity(alloc, runs.len())?;
    written_pages(&mut pages, &runs, len, &[], 0);
    Ok(pages)
}

// The event of a guest's write, with the pages that it wrote.
fn write_event(
    alloc: Global,
    addr: u64,
    bytes: &[u8],
    pages: Vec<usize>,
) -> Result<Event, AllocError>
    ensures command { IfOk result (λ event. command_of event.command ≡ GuestWrite addr bytes.now) }
    ensures outcome { IfOk result (λ event. came_of event.outcome ≡ Done) }
    ensures pages { IfOk result (λ event. event.pages.items ≡ pages.items) }
{
    Ok(Event {
        command: Command::GuestWrite {
            addr,
            bytes: Vec::from_slice(alloc, bytes)?,
        },
        outcome: Outcome::Done,
        pages,
    })
}

// The event of a guest's write, for its entry and for its receipt.
fn recorded_write(
    alloc: Global,
    addr: u64,
    bytes: &[u8],
    pages: Vec<usize>,
) -> Result<Recorded, AllocError>
    ensures entry { IfOk result (λ recorded. (command_of recorded.entry.command ≡ GuestWrite addr bytes.now)
        × (came_of recorded.entry.outcome ≡ Done)
        × (recorded.entry.pages.items ≡ pages.items)) }
    ensures receipt { IfOk result (λ recorded. (command_of recorded.receipt.command ≡ GuestWrite addr
        bytes.now)
        × (came_of recorded.receipt.outcome ≡ Done)
        × (recorded.receipt.pages.items ≡ pages.items)) }
{
    let copy = Vec::from_slice(alloc, &pages)?;
    Ok(Recorded {
        entry: write_event(alloc, addr, bytes, pages)?,
        receipt: write_event(alloc, addr, bytes, copy)?,
    })
}

/// The guest writes bytes from a physical address on, in guest memory; the result is the event for entry and
/// receipt. AllocError if an allocation fails, and then nothing changes.
pub(crate) fn write_recorded<F: FileSystem, I: Iommu + Drop>(
    alloc: Global,
    machine: &mut Machine<F, I>,
    addr: u64,
    bytes: &[u8],
) -> Result<Recorded, AllocError>
    requires reaches { reach (physical (machine_of machine.old).memory) Write addr (length bytes.now) ≡ true }
    ensures keeps { IfOk result (λ recorded. KeepsEvent F.may (machine_of machine.old)
        (GuestWrite addr bytes.now)
        recorded (machine_of machine.new)) }
    ensures lacks { OnErr result (machine_of machine.new ≡ machine_of machine.old) }
{
    let layout = machine.mem.get_backend();
    let pages = write_pages(alloc, &machine.host, layout, addr, bytes.len())?;
    let recorded = recorded_write(alloc, addr, bytes, pages)?;
    // The range is in guest memory, so the machine doesn't refuse the write.
    let _ = machine.guest_write(addr, bytes);
    Ok(recorded)
}

// The event of a new layout: it writes no page.
fn layout_event(alloc: Global, layout: GuestMemoryMmap) -> Event
    ensures command { command_of result.command ≡ SetLayout layout }
    ensures outcome { came_of result.outcome ≡ Done }
    ensures pages { result.pages.items ≡ [] }
{
    Event {
        command: Command::SetLayout(layout),
        outcome: Outcome::Done,
        pages: Vec::new(alloc),
    }
}

/// Replaces all regions by those of a layout whose blocks the host has; the result is the event for entry and
/// receipt. AllocError if an allocation fails, and then nothing changes.
pub(crate) fn layout_recorded<F: FileSystem, I: Iommu + Drop>(
    alloc: Global,
    machine: &mut Machine<F, I>,
    layout: GuestMemoryMmap,
) -> Result<Recorded, AllocError>
    requires { WouldDo (machine_of machine.old) (SetLayout layout) }
    ensures keeps { IfOk result
        (λ recorded. KeepsEvent F.may (machine_of machine.old) (SetLayout layout) recorded
        (machine_of machine.new)) }
    ensures lacks { OnErr result (machine_of machine.new ≡ machine_of machine.old) }
{
    let first = layout.try_clone()?;
    let second = layout.try_clone()?;
    // The host has the layout's blocks, so the machine doesn't refuse it.
    let _ = machine.set_layout(layout);
    Ok(Recorded {
        entry: layout_event(alloc, first),
        receipt: layout_event(alloc, second),
    })
}
