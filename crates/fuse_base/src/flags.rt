//! Sets of flags of linux/fuse.h, as the bits of a number.

ghost use Rattle.std.specs.Prelude.{⊤, ◌≡◌, List, map};
ghost use Rattle.std.specs.Int.RustNames.{bit_and, bit_or};
ghost use Rattle.bitflags.specs.Sets.{Row};
ghost use Rattle.fuse_base.specs.Flags.{setattr_valid, open_options, ioctl_flags, setxattr_flags};
ghost use Rattle.fuse_base.specs.Flags.{notify_inval_entry_out_flags, setupmapping_flags, fs_options};

use bitflags::{Bits, Flag, Flags};
use std::marker::PhantomData;
use std::ops::{BitAnd, BitOr};

// The flags of a set, each with its name.
macro_rules! named {
    ($set:ident; $($name:ident)*) => {
        &[$(Flag { name: stringify!($name), value: $set::$name },)*]
    };
}

/// The flags of a set: their names and bits.
pub trait FlagNames<B: Bits>: Sized {
    // The flags' names and bits, in order.
    ghost table: { List Row };

    /// The flags, each with its name, in the order of the table.
    fn flags<'a>() -> &'a [Flag<FlagSet<B, Self>>]
        ensures { map (λ f. (f.name.now, B.pattern f.value.0)) result.now ≡ table };
}

/// A set of the flags that `N` names, as the bits of a number.
#[derive_where(Clone, Copy, Debug, PartialEq, Eq; B)]
pub struct FlagSet<B, N>(B, PhantomData<N>);

impl<B: Bits + Copy, N: FlagNames<B>> Flags for FlagSet<B, N> {
    type Bits = B;

    ghost exact = { ⊤ };

    ghost table = { N.table };

    ghost set_of = { λ x. B.pattern x.0 };

    fn flags<'a>() -> &'a [Flag<Self>] {
        N::flags()
    }

    fn bits(&self) -> B {
        self.0
    }

    fn from_bits_retain(bits: B) -> Self {
        FlagSet(bits, PhantomData)
    }
}

impl<B: Bits, N> BitOr for FlagSet<B, N> {
    type Output = Self;

    ghost bitor_gives = { λ x y r. B.pattern r.0 ≡ bit_or (B.pattern x.0) (B.pattern y.0) };

    fn bitor(self, other: Self) -> Self {
        FlagSet(self.0 | other.0, PhantomData)
    }
}

impl<B: Bits, N> BitAnd for FlagSet<B, N> {
    type Output = Self;

    ghost bitand_gives = { λ x y r. B.pattern r.0 ≡ bit_and (B.pattern x.0) (B.pattern y.0) };

    fn bitand(self, other: Self) -> Self {
        FlagSet(self.0 & other.0, PhantomData)
    }
}

/// The flags of `SetattrValid`.
pub struct SetattrValidNames;

/// The fields of a `SetattrIn` to set (`FATTR_` in linux/fuse.h).
pub type SetattrValid = FlagSet<u32, SetattrValidNames>;

impl SetattrValid {
    /// The mode.
    pub const MODE: Self = FlagSet(1 << 0, PhantomData);
    /// The owner's user ID.
    pub const UID: Self = FlagSet(1 << 1, PhantomData);
    /// The owner's group ID.
    pub const GID: Self = FlagSet(1 << 2, PhantomData);
    /// The size.
    pub const SIZE: Self = FlagSet(1 << 3, PhantomData);
    /// The access time.
    pub const ATIME: Self = FlagSet(1 << 4, PhantomData);
    /// The modification time.
    pub const MTIME: Self = FlagSet(1 << 5, PhantomData);
    /// The access time, to the current time.
    pub const ATIME_NOW: Self = FlagSet(1 << 7, PhantomData);
    /// The modification time, to the current time.
    pub const MTIME_NOW: Self = FlagSet(1 << 8, PhantomData);
    /// The time of the last status change.
    pub const CTIME: Self = FlagSet(1 << 10, PhantomData);
    /// Clear the set-user-ID and set-group-ID bits.
    pub const KILL_SUIDGID: Self = FlagSet(1 << 11, PhantomData);
}

impl FlagNames<u32> for SetattrValidNames {
    ghost table = { setattr_valid };

    fn flags<'a>() -> &'a [Flag<SetattrValid>] {
        named!(SetattrValid;
            MODE UID GID SIZE ATIME MTIME ATIME_NOW MTIME_NOW CTIME KILL_SUIDGID
        )
    }
}

/// The flags of `OpenOptions`.
pub struct OpenOptionsNames;

/// How the guest treats an open file (`FOPEN_` in linux/fuse.h).
pub type OpenOptions = FlagSet<u32, OpenOptionsNames>;

impl OpenOptions {
    /// Reads and writes bypass the page cache.
    pub const DIRECT_IO: Self = FlagSet(1 << 0, PhantomData);
    /// The open keeps the file's cached data.
    pub const KEEP_CACHE: Self = FlagSet(1 << 1, PhantomData);
    /// The file isn't seekable.
    pub const NONSEEKABLE: Self = FlagSet(1 << 2, PhantomData);
    /// The directory may be cached.
    pub const CACHE_DIR: Self = FlagSet(1 << 3, PhantomData);
    /// The file is a stream: it has no position at all.
    pub const STREAM: Self = FlagSet(1 << 4, PhantomData);
    /// A close doesn't flush the data cache.
    pub const NOFLUSH: Self = FlagSet(1 << 5, PhantomData);
    /// Direct writes of one file may run in parallel.
    pub const PARALLEL_DIRECT_WRITES: Self = FlagSet(1 << 6, PhantomData);
}

impl FlagNames<u32> for OpenOptionsNames {
    ghost table = { open_options };

    fn flags<'a>() -> &'a [Flag<OpenOptions>] {
        named!(OpenOptions;
            DIRECT_IO KEEP_CACHE NONSEEKABLE CACHE_DIR STREAM NOFLUSH PARALLEL_DIRECT_WRITES
        )
    }
}

/// The flags of `IoctlFlags`.
pub struct IoctlFlagsNames;

/// Flags of an ioctl's request and reply (`FUSE_IOCTL_` in linux/fuse.h).
pub type IoctlFlags = FlagSet<u32, IoctlFlagsNames>;

impl IoctlFlags {
    /// A 32-bit call on a 64-bit machine.
    pub const IOCTL_COMPAT: Self = FlagSet(1 << 0, PhantomData);
    /// The ioctl's argument may have any form; retries are allowed.
    pub const IOCTL_UNRESTRICTED: Self = FlagSet(1 << 1, PhantomData);
    /// Retry with these buffers (`struct fuse_ioctl_iovec`).
    pub const IOCTL_RETRY: Self = FlagSet(1 << 2, PhantomData);
    /// A 32-bit call.
    pub const IOCTL_32BIT: Self = FlagSet(1 << 3, PhantomData);
    /// The file is a directory.
    pub const IOCTL_DIR: Self = FlagSet(1 << 4, PhantomData);
    /// An x32 call on a 64-bit machine.
    pub const IOCTL_COMPAT_X32: Self = FlagSet(1 << 5, PhantomData);
    /// 256, the greatest number of buffers of an ioctl, as a flag.
    pub const IOCTL_MAX_IOV: Self = FlagSet(1 << 8, PhantomData);
}

impl FlagNames<u32> for IoctlFlagsNames {
    ghost table = { ioctl_flags };

    fn flags<'a>() -> &'a [Flag<IoctlFlags>] {
        named!(IoctlFlags;
            IOCTL_COMPAT IOCTL_UNRESTRICTED IOCTL_RETRY IOCTL_32BIT IOCTL_DIR IOCTL_COMPAT_X32
            IOCTL_MAX_IOV
        )
    }
}

/// The flags of `SetxattrFlags`.
pub struct SetxattrFlagsNames;

/// Extra flags of a SETXATTR (`FUSE_SETXATTR_` in linux/fuse.h).
pub type SetxattrFlags = FlagSet<u32, SetxattrFlagsNames>;

impl SetxattrFlags {
    /// Clear the set-group-ID bit when an ACL is set.
    pub const SETXATTR_ACL_KILL_SGID: Self = FlagSet(1 << 0, PhantomData);
}

impl FlagNames<u32> for SetxattrFlagsNames {
    ghost table = { setxattr_flags };

    fn flags<'a>() -> &'a [Flag<SetxattrFlags>] {
        named!(SetxattrFlags; SETXATTR_ACL_KILL_SGID)
    }
}

/// The flags of `NotifyInvalEntryOutFlags`.
pub struct NotifyInvalEntryOutFlagsNames;

/// Flags of `fuse_notify_inval_entry_out` (`FUSE_EXPIRE_ONLY` in linux/fuse.h).
pub type NotifyInvalEntryOutFlags = FlagSet<u32, NotifyInvalEntryOutFlagsNames>;

impl NotifyInvalEntryOutFlags {
    /// The entry expires. The guest doesn't drop it.
    pub const EXPIRE_ONLY: Self = FlagSet(1 << 0, PhantomData);
}

impl FlagNames<u32> for NotifyInvalEntryOutFlagsNames {
    ghost table = { notify_inval_entry_out_flags };

    fn flags<'a>() -> &'a [Flag<NotifyInvalEntryOutFlags>] {
        named!(NotifyInvalEntryOutFlags; EXPIRE_ONLY)
    }
}

/// The flags of `SetupmappingFlags`.
pub struct SetupmappingFlagsNames;

/// The accesses that a mapping allows (`FUSE_SETUPMAPPING_FLAG_` in linux/fuse.h).
pub type SetupmappingFlags = FlagSet<u64, SetupmappingFlagsNames>;

impl SetupmappingFlags {
    /// The mapping may be written.
    pub const WRITE: Self = FlagSet(1 << 0, PhantomData);
    /// The mapping may be read.
    pub const READ: Self = FlagSet(1 << 1, PhantomData);
}

impl FlagNames<u64> for SetupmappingFlagsNames {
    ghost table = { setupmapping_flags };

    fn flags<'a>() -> &'a [Flag<SetupmappingFlags>] {
        named!(SetupmappingFlags; WRITE READ)
    }
}

/// The flags of `FsOptions`.
pub struct FsOptionsNames;

/// The options of INIT: `flags` of `struct fuse_init_in` in the low half, `flags2` in the high half.
pub type FsOptions = FlagSet<u64, FsOptionsNames>;

impl FsOptions {
    /// The guest may send reads in parallel.
    pub const ASYNC_READ: Self = FlagSet(1 << 0, PhantomData);
    /// The server handles POSIX record locks.
    pub const POSIX_LOCKS: Self = FlagSet(1 << 1, PhantomData);
    /// GETATTR and SETATTR have a file handle.
    pub const FILE_OPS: Self = FlagSet(1 << 2, PhantomData);
    /// OPEN handles O_TRUNC.
    pub const ATOMIC_O_TRUNC: Self = FlagSet(1 << 3, PhantomData);
    /// LOOKUP handles `.` and `..`.
    pub const EXPORT_SUPPORT: Self = FlagSet(1 << 4, PhantomData);
    /// A WRITE may have more than 4 KiB.
    pub const BIG_WRITES: Self = FlagSet(1 << 5, PhantomData);
    /// The server applies the umask, not the guest.
    pub const DONT_MASK: Self = FlagSet(1 << 6, PhantomData);
    /// The guest's FUSE device supports splicing into it.
    pub const SPLICE_WRITE: Self = FlagSet(1 << 7, PhantomData);
    /// The guest's FUSE device supports splices that move pages.
    pub const SPLICE_MOVE: Self = FlagSet(1 << 8, PhantomData);
    /// The guest's FUSE device supports splicing out of it.
    pub const SPLICE_READ: Self = FlagSet(1 << 9, PhantomData);
    /// The server handles `flock(2)` locks.
    pub const FLOCK_LOCKS: Self = FlagSet(1 << 10, PhantomData);
    /// The guest supports an ioctl on a directory.
    pub const HAS_IOCTL_DIR: Self = FlagSet(1 << 11, PhantomData);
    /// The guest drops a file's cached pages when its modification time changes.
    pub const AUTO_INVAL_DATA: Self = FlagSet(1 << 12, PhantomData);
    /// The server handles READDIRPLUS.
    pub const DO_READDIRPLUS: Self = FlagSet(1 << 13, PhantomData);
    /// The guest chooses between READDIR and READDIRPLUS.
    pub const READDIRPLUS_AUTO: Self = FlagSet(1 << 14, PhantomData);
    /// Direct reads and writes may run in parallel.
    pub const ASYNC_DIO: Self = FlagSet(1 << 15, PhantomData);
    /// The guest caches writes (writeback cache).
    pub const WRITEBACK_CACHE: Self = FlagSet(1 << 16, PhantomData);
    /// The guest may leave OPEN out.
    pub const ZERO_MESSAGE_OPEN: Self = FlagSet(1 << 17, PhantomData);
    /// Look-ups and listings of one directory may run in parallel.
    pub const PARALLEL_DIROPS: Self = FlagSet(1 << 18, PhantomData);
    /// The server clears the set-user-ID and set-group-ID bits on writes, truncations and changes of owner.
    pub const HANDLE_KILLPRIV: Self = FlagSet(1 << 19, PhantomData);
    /// The server handles POSIX ACLs.
    pub const POSIX_ACL: Self = FlagSet(1 << 20, PhantomData);
    /// A read of the guest's FUSE device after an abort fails with ECONNABORTED.
    pub const ABORT_ERROR: Self = FlagSet(1 << 21, PhantomData);
    /// `InitOut::max_pages` is valid.
    pub const MAX_PAGES: Self = FlagSet(1 << 22, PhantomData);
    /// The guest caches the targets of symbolic links.
    pub const CACHE_SYMLINKS: Self = FlagSet(1 << 23, PhantomData);
    /// The guest may leave OPENDIR out.
    pub const ZERO_MESSAGE_OPENDIR: Self = FlagSet(1 << 24, PhantomData);
    /// The guest drops cached pages only on a notification.
    pub const EXPLICIT_INVAL_DATA: Self = FlagSet(1 << 25, PhantomData);
    /// The guest mounts directories with ATTR_SUBMOUNT as submounts.
    pub const SUBMOUNTS: Self = FlagSet(1 << 27, PhantomData);
    /// The server clears the set-user-ID and set-group-ID bits if a request asks for it.
    pub const HANDLE_KILLPRIV_V2: Self = FlagSet(1 << 28, PhantomData);
    /// SETXATTR has the longer `struct fuse_setxattr_in`.
    pub const SETXATTR_EXT: Self = FlagSet(1 << 29, PhantomData);
    /// INIT has the longer `struct fuse_init_in`.
    pub const INIT_EXT: Self = FlagSet(1 << 30, PhantomData);
    /// Reserved.
    pub const INIT_RESERVED: Self = FlagSet(1 << 31, PhantomData);
    /// A request that makes a node has a security context.
    pub const SECURITY_CTX: Self = FlagSet(1 << 32, PhantomData);
    /// DAX is chosen for each file (ATTR_DAX).
    pub const HAS_INODE_DAX: Self = FlagSet(1 << 33, PhantomData);
    /// A request that makes a node has a supplementary group of the caller.
    pub const CREATE_SUPP_GROUP: Self = FlagSet(1 << 34, PhantomData);
    /// A file with DIRECT_IO may be mapped as shared.
    pub const DIRECT_IO_ALLOW_MMAP: Self = FlagSet(1 << 36, PhantomData);
    /// The guest may make ID-mapped mounts.
    pub const ALLOW_IDMAP: Self = FlagSet(1 << 40, PhantomData);
    /// The options that the server accepts whenever the guest offers them.
    pub const DEFAULT: Self = FlagSet(
        Self::ASYNC_READ.0
            | Self::ATOMIC_O_TRUNC.0
            | Self::BIG_WRITES.0
            | Self::HAS_IOCTL_DIR.0
            | Self::AUTO_INVAL_DATA.0
            | Self::ASYNC_DIO.0
            | Self::PARALLEL_DIROPS.0
            | Self::MAX_PAGES.0
            | Self::SUBMOUNTS.0
            | Self::INIT_EXT.0
            | Self::CREATE_SUPP_GROUP.0
            | Self::ALLOW_IDMAP.0,
        PhantomData,
    );
}

impl FlagNames<u64> for FsOptionsNames {
    ghost table = { fs_options };

    fn flags<'a>() -> &'a [Flag<FsOptions>] {
        named!(FsOptions;
            ASYNC_READ POSIX_LOCKS FILE_OPS ATOMIC_O_TRUNC EXPORT_SUPPORT BIG_WRITES DONT_MASK
            SPLICE_WRITE SPLICE_MOVE SPLICE_READ FLOCK_LOCKS HAS_IOCTL_DIR AUTO_INVAL_DATA
            DO_READDIRPLUS READDIRPLUS_AUTO ASYNC_DIO WRITEBACK_CACHE ZERO_MESSAGE_OPEN
            PARALLEL_DIROPS HANDLE_KILLPRIV POSIX_ACL ABORT_ERROR MAX_PAGES CACHE_SYMLINKS
            ZERO_MESSAGE_OPENDIR EXPLICIT_INVAL_DATA SUBMOUNTS HANDLE_KILLPRIV_V2 SETXATTR_EXT
            INIT_EXT INIT_RESERVED SECURITY_CTX HAS_INODE_DAX CREATE_SUPP_GROUP DIRECT_IO_ALLOW_MMAP
            ALLOW_IDMAP
        )
    }
}
