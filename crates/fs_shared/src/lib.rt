//! A virtio-fs device that threads share: the state under its lock, its journal, the receipts of its calls,
//! and the pages that its calls wrote.
#![tactic(auto)]

mod acting;
mod auditing;
mod calls;
mod device;
mod entry;
mod harvest;
mod kicking;
pub mod laws;
mod numbers;
mod recorded;
mod return_pages;
mod runs;
mod same_command;
mod same_layout;
mod same_outcome;
mod share;
mod share_error;
mod start;
mod state;

pub use auditing::audit;
pub use device::SharedDevice;
pub use entry::{JournalEntry, Kicked, Outcome, Parts, Receipt, Start};
pub use harvest::PageHarvest;
pub use share::Share;
pub use share_error::ShareError;
pub use state::SharedState;
