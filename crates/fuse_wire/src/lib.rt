//! The records and numbers of the FUSE protocol, version 7.38 (linux/fuse.h). Numbers are little-endian.
#![tactic(auto)]

mod notices;
mod opcodes;
mod others;
mod replies;

pub use fuse_base::{
    Attr, Errno, FileLock, FsOptions, GuestGid, GuestUid, HostGid, HostUid, IoctlFlags, Kstatfs,
    NotifyInvalEntryOutFlags, OpenOptions, SetattrValid, SetupmappingFlags, SetxattrFlags, Stat,
    StatVfs, constants,
};
pub use fuse_in::{
    AccessIn, BatchForgetIn, BmapIn, CopyfilerangeIn, CreateIn, FallocateIn, FlushIn, ForgetIn,
    FsyncIn, GetattrIn, GetxattrIn, InHeader, InRecord, InitInCompat, InitInExt, InterruptIn,
    IoctlIn, LinkIn, LkIn, LseekIn, MkdirIn, MknodIn, NotifyRetrieveIn, OpenIn, PollIn, ReadIn,
    ReleaseIn, RemovemappingIn, Rename2In, RenameIn, SetattrIn, SetupmappingIn, SetxattrIn,
    SetxattrInCompat, SyncfsIn, WriteIn,
};
pub use notices::{
    Notify_Retrieve_Out, NotifyDeleteOut, NotifyInvalEntryOut, NotifyInvalInodeOut,
    NotifyPollWakeupOut, NotifyStoreOut,
};
pub use opcodes::{ExtType, NotifyOpcode, Opcode};
pub use others::{
    BmapOut, ExtHeader, ForgetOne, IoctlIovec, IoctlOut, PollOut, RemovemappingOne, Secctx,
    SecctxHeader, SuppGroups,
};
pub use replies::{
    AttrOut, Dirent, Direntplus, EntryOut, GetxattrOut, InitOut, LkOut, LseekOut, OpenOut,
    OutHeader, StatfsOut, WriteOut,
};
