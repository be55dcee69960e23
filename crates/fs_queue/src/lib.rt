//! A split virtqueue in guest memory (VIRTIO 1.2, section 2.7).
#![tactic(auto)]

mod access;
mod address_map;
mod by_loads;
mod chain;
mod chain_walk;
mod descriptor;
mod fault;
pub mod laws;
mod layout;
mod queue;
mod returning;
mod take;
mod used;
mod walk;
mod walk_step;
mod written;

pub use address_map::{AddressMap, chain_fault, count_bytes, return_fault};
pub use chain::{Chain, ReturnWindows, Taken};
pub use chain_walk::{ChainWalk, Progress, WalkAdvance, WalkEnd};
pub use descriptor::{Descriptor, Descriptors};
pub use fault::{ChainFault, MOST_LIMIT, QueueError, QueueLayoutError};
pub use layout::QueueLayout;
pub use queue::Queue;
pub use returning::{ElementStore, IndexStore, Return};
pub use take::{add_return_windows, hold_chain};
pub use walk::{IndexWalk, RingEntryWalk, Walk};
pub use walk_step::DescriptorTable;
