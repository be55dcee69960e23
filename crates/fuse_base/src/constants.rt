//! Numbers of linux/fuse.h, where each name but those with FATTR_ begins with FUSE_.

/// The major version of the protocol (FUSE_KERNEL_VERSION).
pub const KERNEL_VERSION: u32 = 7;

/// The minor version that INIT's reply names (FUSE_KERNEL_MINOR_VERSION).
pub const KERNEL_MINOR_VERSION: u32 = 38;

/// The lowest minor version of a guest that the server accepts (virtiofsd's `MIN_KERNEL_MINOR_VERSION`).
pub const MIN_KERNEL_MINOR_VERSION: u32 = 27;

/// The root's node number (FUSE_ROOT_ID).
pub const ROOT_ID: u64 = 1;

/// In `SetattrIn::valid`: `fh` is valid.
pub const FATTR_FH: u32 = 64;

/// In `SetattrIn::valid`: `lock_owner` is valid.
pub const FATTR_LOCKOWNER: u32 = 512;

/// In `ReleaseIn::release_flags`: flush the file too.
pub const RELEASE_FLUSH: u32 = 1;

/// In `ReleaseIn::release_flags`: release the `flock(2)` lock too.
pub const RELEASE_FLOCK_UNLOCK: u32 = 2;

/// In `GetattrIn::flags`: `fh` is valid.
pub const GETATTR_FH: u32 = 1;

/// In `LkIn::lk_flags`: a `flock(2)` lock.
pub const LK_FLOCK: u32 = 1;

/// In `WriteIn::write_flags`: a delayed write from the guest's page cache.
pub const WRITE_CACHE: u32 = 1;

/// In `WriteIn::write_flags`: `lock_owner` is valid.
pub const WRITE_LOCKOWNER: u32 = 2;

/// In `WriteIn::write_flags`: clear the set-user-ID and set-group-ID bits.
pub const WRITE_KILL_PRIV: u32 = 4;

/// In `ReadIn::read_flags`: `lock_owner` is valid.
pub const READ_LOCKOWNER: u32 = 2;

/// In `PollIn::flags`: the guest asks for a notification.
pub const POLL_SCHEDULE_NOTIFY: u32 = 1;

/// The smallest buffer for reading a request, in bytes.
pub const FUSE_MIN_READ_BUFFER: u32 = 8192;

/// In `FsyncIn::fsync_flags`: sync only the data, not the metadata.
pub const FSYNC_FDATASYNC: u32 = 1;

/// In `Attr::flags`: the node is the root of a submount.
pub const ATTR_SUBMOUNT: u32 = 1;

/// In `Attr::flags`: DAX is enabled for the file.
pub const ATTR_DAX: u32 = 2;

/// In `OpenIn::open_flags`: clear the set-user-ID and set-group-ID bits.
pub const OPEN_KILL_SUIDGID: u32 = 1;

/// The size of `fuse_entry_out` before version 7.9, in bytes.
pub const FUSE_COMPAT_ENTRY_OUT_SIZE: u32 = 120;

/// The size of `fuse_attr_out` before version 7.9, in bytes.
pub const FUSE_COMPAT_ATTR_OUT_SIZE: u32 = 96;

/// The size of `fuse_mknod_in` before version 7.12, in bytes.
pub const FUSE_COMPAT_MKNOD_IN_SIZE: u32 = 8;

/// The size of `fuse_write_in` before version 7.9, in bytes.
pub const FUSE_COMPAT_WRITE_IN_SIZE: u32 = 24;

/// The size of `fuse_statfs_out` before version 7.4, in bytes.
pub const FUSE_COMPAT_STATFS_SIZE: u32 = 48;

/// The size of `fuse_init_out` before version 7.5, in bytes.
pub const FUSE_COMPAT_INIT_OUT_SIZE: u32 = 8;

/// The size of `fuse_init_out` from version 7.5 to 7.22, in bytes.
pub const FUSE_COMPAT_22_INIT_OUT_SIZE: u32 = 24;

/// The size of `fuse_setxattr_in` without FUSE_SETXATTR_EXT, in bytes.
pub const FUSE_COMPAT_SETXATTR_IN_SIZE: u32 = 8;
