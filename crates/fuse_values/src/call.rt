//! A call of a file system as a value.

use crate::placed::Placed;
use crate::received::Received;
use fuse_base::{FsOptions, SetattrValid, SetxattrFlags};
use fuse_fs::Context;
use fuse_in::SetattrIn;

/// A call of a file system with its arguments, which have the names of `FileSystem`'s. Nodes and handles are
/// numbers of linux/fuse.h. Offsets and lengths count bytes. Names have no zero byte. `context` is the
/// calling process in the guest. Names, values and pairs are borrowed from the request, each with its offset.
#[derive(Clone, Copy)]
pub enum FileCall<'a> {
    /// Starts a session (FUSE_INIT).
    Init {
        capable: FsOptions,
    },
    /// Ends a session (FUSE_DESTROY).
    Destroy,
    /// Looks up a name in a directory (FUSE_LOOKUP).
    Lookup {
        context: Context,
        node: u64,
        name: Placed<'a>,
    },
    /// Lowers a node's lookup count by `count` (FUSE_FORGET).
    Forget {
        context: Context,
        node: u64,
        count: u64,
    },
    /// Lowers the lookup counts of nodes (FUSE_BATCH_FORGET). A pair has 16 bytes: a node's number
    /// and its count, little-endian (`struct fuse_forget_one`).
    BatchForget {
        context: Context,
        counts: Placed<'a>,
    },
    /// Gets a node's attributes (FUSE_GETATTR).
    Getattr {
        context: Context,
        node: u64,
        handle: Option<u64>,
    },
    /// Sets those attributes of a node that `valid` names (FUSE_SETATTR).
    Setattr {
        context: Context,
        node: u64,
        attr: SetattrIn,
        handle: Option<u64>,
        valid: SetattrValid,
    },
    /// Reads the target of a symbolic link (FUSE_READLINK).
    Readlink {
        context: Context,
        node: u64,
    },
    /// Makes a symbolic link to `link` (FUSE_SYMLINK).
    Symlink {
        context: Context,
        link: Placed<'a>,
        node: u64,
        name: Placed<'a>,
        extra: Received<'a>,
    },
    /// Makes a node of the kind in `mode` (FUSE_MKNOD).
    Mknod {
        context: Context,
        node: u64,
        name: Placed<'a>,
        mode: u32,
        rdev: u32,
        umask: u32,
        extra: Received<'a>,
    },
    /// Makes a directory (FUSE_MKDIR).
    Mkdir {
        context: Context,
        node: u64,
        name: Placed<'a>,
        mode: u32,
        umask: u32,
        extra: Received<'a>,
    },
    /// Removes a name that isn't a directory's (FUSE_UNLINK).
    Unlink {
        context: Context,
        node: u64,
        name: Placed<'a>,
    },
    /// Removes an empty directory (FUSE_RMDIR).
    Rmdir {
        context: Context,
        node: u64,
        name: Placed<'a>,
    },
    /// Renames a file or directory (FUSE_RENAME and FUSE_RENAME2).
    Rename {
        context: Context,
        node: u64,
        old: Placed<'a>,
        new_dir: u64,
        new: Placed<'a>,
        flags: u32,
    },
    /// Gives `old_node` a name in the directory `node` (FUSE_LINK).
    Link {
        context: Context,
        old_node: u64,
        node: u64,
        name: Placed<'a>,
    },
    /// Opens a file (FUSE_OPEN).
    Open {
        context: Context,
        node: u64,
        kill: bool,
        flags: u32,
    },
    /// Reads a file (FUSE_READ). At most `room` bytes fit into the reply.
    Read {
        context: Context,
        node: u64,
        handle: u64,
        room: usize,
        size: u32,
        offset: u64,
        owner: Option<u64>,
        flags: u32,
    },
    /// Writes a file (FUSE_WRITE). The data has `len` bytes. It stays in the request, and this
    /// value doesn't hold it.
    Write {
        context: Context,
        node: u64,
        handle: u64,
        len: usize,
        size: u32,
        offset: u64,
        owner: Option<u64>,
        delayed: bool,
        kill: bool,
        flags: u32,
    },
    /// Gets the counts of the file system (FUSE_STATFS).
    Statfs {
        context: Context,
        node: u64,
    },
    /// The guest closed the last descriptor of an open file (FUSE_RELEASE).
    Release {
        context: Context,
        node: u64,
        flags: u32,
        handle: u64,
        flush: bool,
        unlock: bool,
        owner: Option<u64>,
    },
    /// Flushes the writes of a file to storage (FUSE_FSYNC).
    Fsync {
        context: Context,
        node: u64,
        data_only: bool,
        handle: u64,
    },
    /// Flushes the changes of a directory to storage (FUSE_FSYNCDIR).
    Fsyncdir {
        context: Context,
        node: u64,
        data_only: bool,
        handle: u64,
    },
    /// Sets an extended attribute (FUSE_SETXATTR).
    Setxattr {
        context: Context,
        node: u64,
        name: Placed<'a>,
        value: Placed<'a>,
        flags: u32,
        extra: SetxattrFlags,
    },
    /// Gets the value of an extended attribute (FUSE_GETXATTR).
    Getxattr {
        context: Context,
        node: u64,
        name: Placed<'a>,
        size: u32,
    },
    /// Lists the names of a node's extended attributes (FUSE_LISTXATTR).
    Listxattr {
        context: Context,
        node: u64,
        size: u32,
    },
    /// Removes an extended attribute (FUSE_REMOVEXATTR).
    Removexattr {
        context: Context,
        node: u64,
        name: Placed<'a>,
    },
    /// The guest closed a descriptor of an open file (FUSE_FLUSH).
    Flush {
        context: Context,
        node: u64,
        handle: u64,
        owner: u64,
    },
    /// Opens a directory (FUSE_OPENDIR).
    Opendir {
        context: Context,
        node: u64,
        flags: u32,
    },
    /// Lists the entries of a directory after an offset (FUSE_READDIR and FUSE_READDIRPLUS).
    Readdir {
        context: Context,
        node: u64,
        handle: u64,
        size: u32,
        offset: u64,
    },
    /// The guest closed the last descriptor of an open directory (FUSE_RELEASEDIR).
    Releasedir {
        context: Context,
        node: u64,
        flags: u32,
        handle: u64,
    },
    /// Gets the holder of a lock (FUSE_GETLK).
    Getlk,
    /// Takes or releases a lock (FUSE_SETLK).
    Setlk,
    /// Waits for a lock (FUSE_SETLKW).
    Setlkw,
    /// Finds a block of a file on its device (FUSE_BMAP).
    Bmap,
    /// Controls a device (FUSE_IOCTL).
    Ioctl,
    /// Asks which events an open file is ready for (FUSE_POLL).
    Poll,
    /// Answers a notification (FUSE_NOTIFY_REPLY).
    NotifyReply,
    /// Checks whether the caller may access a node (FUSE_ACCESS).
    Access {
        context: Context,
        node: u64,
        mask: u32,
    },
    /// Makes a file and opens it (FUSE_CREATE).
    Create {
        context: Context,
        node: u64,
        name: Placed<'a>,
        mode: u32,
        kill: bool,
        flags: u32,
        umask: u32,
        extra: Received<'a>,
    },
    /// Allocates or frees space of a file (FUSE_FALLOCATE).
    Fallocate {
        context: Context,
        node: u64,
        handle: u64,
        mode: u32,
        offset: u64,
        len: u64,
    },
    /// Finds an offset in an open file (FUSE_LSEEK).
    Lseek {
        context: Context,
        node: u64,
        handle: u64,
        offset: u64,
        whence: u32,
    },
    /// Copies bytes of one open file to another (FUSE_COPY_FILE_RANGE).
    CopyFileRange {
        context: Context,
        node: u64,
        handle: u64,
        offset: u64,
        node_out: u64,
        handle_out: u64,
        offset_out: u64,
        len: u64,
        flags: u64,
    },
    /// Flushes all writes to storage (FUSE_SYNCFS).
    Syncfs {
        context: Context,
        node: u64,
    },
    /// Makes a file without a name (FUSE_TMPFILE).
    TmpFile,
}
