//! Equality of commands.

ghost use Rattle.std.specs.Prelude.{◌≡◌, ◌↔◌, IsTrue};
ghost use Rattle.fs_device.specs.CommandView.{command_of};
ghost use Rattle.plain_machine.specs.Run.{GuestRead, GuestWrite, Harvest, Image, InsertRegion, Kick, Map};
ghost use Rattle.plain_machine.specs.Run.{NewBlock, RemoveRegion, ResetQueue, SetIommu, SetLayout, Unmap};
ghost use Rattle.plain_machine.specs.Run.{UnmapAll};

use crate::same_layout::same_layout;
use fs_device::Command;
use fs_queue::QueueLayout;
use vm_iotlb::Permissions;
use vm_memory::GuestMemoryMmap;

// Whether a command is a read of `len` bytes at an address.
fn is_read(command: &Command, addr: u64, len: usize) -> bool
    ensures { IsTrue result ↔ (command_of command.now ≡ GuestRead addr len) }
{
    match command {
        Command::GuestRead {
            addr: other_addr,
            len: other_len,
        } => *other_addr == addr && *other_len == len,
        _ => false,
    }
}

// Whether a command is a write of these bytes at an address.
fn is_write(command: &Command, addr: u64, bytes: &[u8]) -> bool
    ensures { IsTrue result ↔ (command_of command.now ≡ GuestWrite addr bytes.now) }
{
    match command {
        Command::GuestWrite {
            addr: other_addr,
            bytes: other_bytes,
        } => *other_addr == addr && other_bytes.as_slice() == bytes,
        _ => false,
    }
}

// Whether a command is a new block of this length.
fn is_new_block(command: &Command, len: usize) -> bool
    ensures { IsTrue result ↔ (command_of command.now ≡ NewBlock len) }
{
    match command {
        Command::NewBlock { len: other_len } => *other_len == len,
        _ => false,
    }
}

// Whether a command is the insertion of a block at a base.
fn is_insert(command: &Command, base: u64, block: usize) -> bool
    ensures { IsTrue result ↔ (command_of command.now ≡ InsertRegion base block) }
{
    match command {
        Command::InsertRegion {
            base: other_base,
            block: other_block,
        } => *other_base == base && *other_block == block,
        _ => false,
    }
}

// Whether a command is the removal of the region of this base and size.
fn is_remove(command: &Command, base: u64, size: u64) -> bool
    ensures { IsTrue result ↔ (command_of command.now ≡ RemoveRegion base size) }
{
    match command {
        Command::RemoveRegion {
            base: other_base,
            size: other_size,
        } => *other_base == base && *other_size == size,
        _ => false,
    }
}

// Whether a command sets this layout.
fn is_layout(command: &Command, layout: &GuestMemoryMmap) -> bool
    ensures { IsTrue result ↔ (command_of command.now ≡ SetLayout layout.now) }
{
    match command {
        Command::SetLayout(other_layout) => same_layout(layout, other_layout),
        _ => false,
    }
}

// Whether a command is this mapping of I/O addresses.
fn is_map(command: &Command, iova: u64, target: u64, len: usize, perm: Permissions) -> bool
    ensures { IsTrue result ↔ (command_of command.now ≡ Map iova target len perm) }
{
    match command {
        Command::Map {
            iova: other_iova,
            target: other_target,
            len: other_len,
            perm: other_perm,
        } => *other_iova == iova
            && *other_target == target
            && *other_len == len
            && *other_perm == perm,
        _ => false,
    }
}

// Whether a command unmaps this range of I/O addresses.
fn is_unmap(command: &Command, iova: u64, len: usize) -> bool
    ensures { IsTrue result ↔ (command_of command.now ≡ Unmap iova len) }
{
    match command {
        Command::Unmap {
            iova: other_iova,
            len: other_len,
        } => *other_iova == iova && *other_len == len,
        _ => false,
    }
}

// Whether a command unmaps all I/O addresses.
fn is_unmap_all(command: &Command) -> bool
    ensures { IsTrue result ↔ (command_of command.now ≡ UnmapAll) }
{
    matches!(command, Command::UnmapAll)
}

// Whether a command switches the IOMMU on, or off.
fn is_switch(command: &Command, on: bool) -> bool
    ensures { IsTrue result ↔ (command_of command.now ≡ SetIommu on) }
{
    match command {
        Command::SetIommu(other_on) => *other_on == on,
        _ => false,
    }
}

// Whether a command is a kick of a queue for at most `most` chains.
fn is_kick(command: &Command, queue: usize, most: u16) -> bool
    ensures { IsTrue result ↔ (command_of command.now ≡ Kick queue most) }
{
    match command {
        Command::Kick {
            queue: other_queue,
            most: other_most,
        } => *other_queue == queue && *other_most == most,
        _ => false,
    }
}

// Whether two queues' layouts have the same size and addresses.
fn same_queue_layout(one: QueueLayout, other: QueueLayout) -> bool
    ensures { IsTrue result ↔ ((other.size ≡ one.size)
        × (other.desc ≡ one.desc)
        × (other.avail ≡ one.avail)
        × (other.used ≡ one.used)) }
{
    other.size() == one.size()
        && other.desc() == one.desc()
        && other.avail() == one.avail()
        && other.used() == one.used()
}

// Whether a command is a reset of a queue to a layout.
fn is_reset(command: &Command, queue: usize, layout: QueueLayout) -> bool
    ensures { IsTrue result ↔
        (command_of command.now ≡ ResetQueue queue layout.size layout.desc layout.avail layout.used) }
{
    match command {
        Command::ResetQueue {
            queue: other_queue,
            layout: other_layout,
        } => *other_queue == queue && same_queue_layout(layout, *other_layout),
        _ => false,
    }
}

// Whether a command takes an image.
fn is_image(command: &Command) -> bool
    ensures { IsTrue result ↔ (command_of command.now ≡ Image) }
{
    matches!(command, Command::Image)
}

// Whether a command harvests the marked pages.
fn is_harvest(command: &Command) -> bool
    ensures { IsTrue result ↔ (command_of command.now ≡ Harvest) }
{
    matches!(command, Command::Harvest)
}

/// Whether two commands are equal, layouts by the base, length and block of each region.
pub(crate) fn same_command(one: &Command, other: &Command) -> bool
    ensures { IsTrue result ↔ (command_of other.now ≡ command_of one.now) }
{
    match one {
        Command::GuestRead { addr, len } => is_read(other, *addr, *len),
        Command::GuestWrite { addr, bytes } => is_write(other, *addr, bytes.as_slice()),
        Command::NewBlock { len } => is_new_block(other, *len),
        Command::InsertRegion { base, block } => is_insert(other, *base, *block),
        Command::RemoveRegion { base, size } => is_remove(other, *base, *size),
        Command::SetLayout(layout) => is_layout(other, layout),
        Command::Map {
            iova,
            target,
            len,
            perm,
        } => is_map(other, *iova, *target, *len, *perm),
        Command::Unmap { iova, len } => is_unmap(other, *iova, *len),
        Command::UnmapAll => is_unmap_all(other),
        Command::SetIommu(on) => is_switch(other, *on),
        Command::Kick { queue, most } => is_kick(other, *queue, *most),
        Command::ResetQueue { queue, layout } => is_reset(other, *queue, *layout),
        Command::Image => is_image(other),
        Command::Harvest => is_harvest(other),
    }
}
