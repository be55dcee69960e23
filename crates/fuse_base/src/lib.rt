//! The parts of the FUSE protocol that requests and replies share: user, group and error numbers,
//! flags and records.
#![tactic(auto)]

pub mod constants;
pub mod flags;
mod ids;
mod records;
mod stats;

pub use flags::{
    FsOptions, IoctlFlags, NotifyInvalEntryOutFlags, OpenOptions, SetattrValid, SetupmappingFlags,
    SetxattrFlags,
};
pub use ids::{Errno, GuestGid, GuestUid, HostGid, HostUid};
pub use records::{Attr, FileLock, Kstatfs};
pub use stats::{Stat, StatVfs};
