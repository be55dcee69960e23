//! The records of FUSE requests (linux/fuse.h). Their numbers are little-endian.
#![tactic(auto)]

mod devices;
mod files;
mod nodes;
mod record;
mod session;

pub use devices::{BmapIn, IoctlIn, NotifyRetrieveIn, PollIn, RemovemappingIn, SetupmappingIn};
pub use files::{
    CopyfilerangeIn, CreateIn, FallocateIn, FlushIn, FsyncIn, LkIn, LseekIn, OpenIn, ReadIn,
    ReleaseIn, WriteIn,
};
pub use nodes::{
    AccessIn, GetattrIn, GetxattrIn, LinkIn, MkdirIn, MknodIn, Rename2In, RenameIn, SetattrIn,
    SetxattrIn, SetxattrInCompat,
};
pub use record::InRecord;
pub use session::{
    BatchForgetIn, ForgetIn, InHeader, InitInCompat, InitInExt, InterruptIn, SyncfsIn,
};
