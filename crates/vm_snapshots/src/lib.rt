//! Snapshots of guest memory that threads share, and that one of them at a time replaces (vm-memory's
//! `atomic`).
#![tactic(auto)]

mod address_space;
mod atomic;
mod law;

pub use address_space::GuestAddressSpace;
pub use atomic::{
    GuestMemoryAtomic, GuestMemoryExclusiveGuard, GuestMemoryLoadGuard, GuestMemoryReplaceGuard,
};
pub use law::{AnyMemory, MemoryLaw};
