//! The entries of a journal, and the receipts of calls.

use fs_device::{Command, DeviceError, Exchange, Machine};
use fs_queue::Queue;
use fuse_wire::FsOptions;
use vm_memory::{GuestMemoryMmap, Iommu};
use vm_memory_core::{HostMemory, PageBitmap};

/// The outcome of a journaled call: a change was made, a chain was served, or a refusal stopped the queue.
/// The flag of `Served` is whether to notify the driver (VIRTIO 1.2, 2.7.7).
#[derive(Debug, Drop)]
pub enum Outcome {
    Done,
    Served(Exchange, bool),
    Stopped(DeviceError),
}

/// One event: the call's command, its outcome, the options after it, and the pages of blocks that it wrote,
/// ascending. A kick's command has `most` 1. Pages have 4096 bytes and are numbered block by block.
#[derive(Drop)]
pub struct JournalEntry {
    pub command: Command,
    pub outcome: Outcome,
    pub options: FsOptions,
    pub pages: Vec<usize>,
}

/// The result of a journaled call: the number of its entry, from 0, with the entry's command, outcome and
/// pages.
#[derive(Drop)]
pub struct Receipt {
    pub number: usize,
    pub command: Command,
    pub outcome: Outcome,
    pub pages: Vec<usize>,
}

/// The result of a kick that isn't refused, or whose refusal was journaled.
#[derive(Drop)]
pub enum Kicked {
    /// No chain is available.
    Idle,
    Done(Receipt),
}

/// The machine's state when the journal began: a copy of the host with its marks, the layout, the queues and
/// the options.
#[derive(Drop)]
pub struct Start {
    pub host: HostMemory<PageBitmap>,
    pub layout: GuestMemoryMmap,
    pub queues: Vec<Queue>,
    pub options: FsOptions,
}

/// The machine, its start and its journal, once no thread shares them.
#[derive(Drop)]
pub struct Parts<F, I: Iommu + Drop> {
    pub machine: Machine<F, I>,
    pub start: Start,
    pub journal: Vec<JournalEntry>,
}
