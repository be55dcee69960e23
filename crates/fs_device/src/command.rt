//! The commands of a machine, and its answers.

ghost use Rattle.std.specs.Prelude.{◌≡◌};
ghost use Rattle.fs_device.specs.CommandView.{command_of};
ghost use Rattle.fs_device.specs.Moving.{follows_image};

use crate::harvested::HarvestedPage;
use crate::queues::QueueRun;
use fs_queue::QueueLayout;
use plain_machine::Refusal;
use vm_memory::GuestMemoryMmap;
use vm_memory_core::{HostMemory, PageBitmap, Permissions};

/// An action of a guest or its VMM.
#[derive(Drop)]
pub enum Command {
    /// The guest reads `len` bytes from a physical address on: all of them, or none.
    GuestRead {
        addr: u64,
        len: usize,
    },
    /// The guest writes bytes from a physical address on: all of them, or none.
    GuestWrite {
        addr: u64,
        bytes: Vec<u8>,
    },
    /// The host gets a new block of `len` zeros, without a marked page.
    NewBlock {
        len: usize,
    },
    /// The guest's memory gets a region from an address on that shows all of a block. The block may
    /// already have other regions.
    InsertRegion {
        base: u64,
        block: usize,
    },
    /// The region with this first address and size is removed; its block stays.
    RemoveRegion {
        base: u64,
        size: u64,
    },
    /// Other regions replace all that exist.
    SetLayout(GuestMemoryMmap),
    /// `len` of the device's I/O addresses from `iova` on are mapped to those from a physical address
    /// on.
    Map {
        iova: u64,
        target: u64,
        len: usize,
        perm: Permissions,
    },
    /// The mappings of `len` I/O addresses from `iova` on are removed.
    Unmap {
        iova: u64,
        len: usize,
    },
    /// The mappings of all I/O addresses are removed.
    UnmapAll,
    /// The IOMMU is turned on or off. While it is on, its table translates the device's addresses.
    SetIommu(bool),
    /// The device serves at most `most` chains of a queue.
    Kick {
        queue: usize,
        most: u16,
    },
    /// A queue is reset to this layout.
    ResetQueue {
        queue: usize,
        layout: QueueLayout,
    },
    /// The host is copied, and the marks of its blocks are cleared: a later harvest has the pages
    /// written since.
    Image,
    /// The marked pages of blocks are copied, and their marks are cleared.
    Harvest,
}

impl Command {
    /// Whether the command may follow an image during `Machine::migrate`: it isn't a new block, a
    /// change of mappings, turning on the IOMMU, or another image.
    pub fn follows_image(&self) -> bool
        ensures { result ≡ follows_image (command_of self.now) }
    {
        match self {
            Command::NewBlock { .. }
            | Command::Map { .. }
            | Command::Unmap { .. }
            | Command::UnmapAll
            | Command::Image => false,
            Command::SetIommu(on) => !*on,
            Command::GuestRead { .. }
            | Command::GuestWrite { .. }
            | Command::InsertRegion { .. }
            | Command::RemoveRegion { .. }
            | Command::SetLayout(_)
            | Command::Kick { .. }
            | Command::ResetQueue { .. }
            | Command::Harvest => true,
        }
    }
}

/// The answer to a command: `Bytes` to `GuestRead`, `Block` to `NewBlock`, `Served` to `Kick`, `Copied`
/// to `Image`, `Pages` to `Harvest`, and `Done` to others. Any command may be `Refused`.
#[derive(Debug, Drop)]
pub enum Answer {
    Done,
    Bytes(Vec<u8>),
    /// The number of a new block.
    Block(usize),
    Served(QueueRun),
    /// A copy of the host, without a marked page of a block.
    Copied(HostMemory<PageBitmap>),
    /// The pages that were marked, by block and page.
    Pages(Vec<HarvestedPage>),
    Refused(Refusal),
}
