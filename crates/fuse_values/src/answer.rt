//! An answer of a file system as a value.

use fuse_base::{Attr, Errno, FsOptions, OpenOptions, StatVfs};
use fuse_fs::{Entry, Timeout};

/// An answer of a file system: an errno, or the call's result. The entries of a directory have no
/// variant: the caller adds them one by one.
#[derive(Drop)]
pub enum FileAnswer {
    /// An errno (errno.h, 1 to 4095).
    Failed(Errno),
    /// The call succeeded. It has no result.
    Done,
    /// The node of a name. Node 0 is a negative entry: the name doesn't exist.
    HasEntry(Entry<u64>),
    /// A node's attributes, and how long the guest may cache them.
    HasAttr(Attr, Timeout),
    /// An open file: its handle, and how the guest treats it.
    Opened {
        handle: Option<u64>,
        options: OpenOptions,
    },
    /// A file that was made and opened.
    Created {
        entry: Entry<u64>,
        handle: Option<u64>,
        options: OpenOptions,
    },
    /// The number of bytes of data. This value doesn't hold the data.
    Bytes {
        len: usize,
    },
    /// The length of a value or of names in bytes, if the call's size is 0.
    Count(u32),
    /// The counts of a file system (`statvfs(3)`).
    Stats(StatVfs),
    /// The number of bytes written.
    Wrote(u32),
    /// An offset in a file, in bytes from its start.
    Offset(u64),
    /// The options that the file system asks for, of those that guest and server support.
    Wants(FsOptions),
}
