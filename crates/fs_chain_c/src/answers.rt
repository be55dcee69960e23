//! Answers, as C passes them.

ghost use Rattle.std.specs.Prelude.{◌≡◌};
ghost use Rattle.fs_chain_c.specs.Replies.{attr_of, attr_said, create_said, entry_of, entry_said, open_said};
ghost use Rattle.fs_chain_c.specs.Replies.{statfs_said, init_options_said};

use crate::call::FsAttr;
use bitflags::Flags;
use fuse_base::{Attr, FsOptions, GuestGid, GuestUid, OpenOptions, StatVfs};
use fuse_fs::{Entry, Timeout};
use fuse_values::FileAnswer;

/// An entry: the node of a name. Node 0: the name is known not to exist.
#[repr(C)]
#[derive(Clone, Copy)]
pub struct FsEntry {
    /// The number of the node.
    pub node: u64,
    /// The generation: distinguishes the nodes that had this number.
    pub generation: u64,
    /// How long the guest may cache the name, in seconds.
    pub entry_secs: u64,
    /// How long the guest may cache the attributes, in seconds.
    pub attr_secs: u64,
    /// Nanoseconds of `entry_secs`.
    pub entry_nanos: u32,
    /// Nanoseconds of `attr_secs`.
    pub attr_nanos: u32,
    /// The node's attributes.
    pub attr: FsAttr,
}

/// Sizes and free space of the file system.
#[repr(C)]
#[derive(Clone, Copy)]
pub struct FsStatfs {
    /// The number of blocks, of `frsize` bytes each.
    pub blocks: u64,
    /// The number of free blocks.
    pub bfree: u64,
    /// The number of free blocks for unprivileged users.
    pub bavail: u64,
    /// The number of nodes.
    pub files: u64,
    /// The number of free nodes.
    pub ffree: u64,
    /// The preferred length of a read or write, in bytes.
    pub bsize: u32,
    /// The longest name, in bytes.
    pub namelen: u32,
    /// The bytes of a block.
    pub frsize: u32,
}

fn attr_of(attr: &FsAttr) -> Attr
    ensures { result ≡ attr_of attr.now }
{
    Attr {
        ino: attr.ino,
        size: attr.size,
        blocks: attr.blocks,
        atime: attr.atime,
        mtime: attr.mtime,
        ctime: attr.ctime,
        atimensec: attr.atime_nanos,
        mtimensec: attr.mtime_nanos,
        ctimensec: attr.ctime_nanos,
        mode: attr.mode,
        nlink: attr.nlink,
        uid: GuestUid(attr.uid),
        gid: GuestGid(attr.gid),
        rdev: attr.rdev,
        blksize: attr.block_size,
        flags: attr.flags,
    }
}

/// An entry; None if a time isn't valid.
pub fn entry_of(entry: &FsEntry) -> Option<Entry<u64>>
    ensures { result ≡ entry_of entry.now }
{
    let Some(attr_timeout) = Timeout::new(entry.attr_secs, entry.attr_nanos) else {
        return None;
    };
    let Some(entry_timeout) = Timeout::new(entry.entry_secs, entry.entry_nanos) else {
        return None;
    };
    Some(Entry {
        inode: entry.node,
        generation: entry.generation,
        attr: attr_of(&entry.attr),
        attr_timeout,
        entry_timeout,
    })
}

/// The answer of an entry; None if a time isn't valid.
pub fn entry_said(entry: Option<Entry<u64>>) -> Option<FileAnswer>
    ensures { result ≡ entry_said entry }
{
    match entry {
        Some(entry) => Some(FileAnswer::HasEntry(entry)),
        None => None,
    }
}

/// The answer of a file that was created and opened; None if a time isn't valid.
pub fn create_said(entry: Option<Entry<u64>>, handle: u64, flags: u32) -> Option<FileAnswer>
    ensures { result ≡ create_said entry handle flags }
{
    match entry {
        Some(entry) => Some(FileAnswer::Created {
            entry,
            handle: Some(handle),
            options: OpenOptions::from_bits_retain(flags),
        }),
        None => None,
    }
}

/// The answer of attributes; None if the time isn't valid.
pub fn attr_said(attr: &FsAttr, secs: u64, nanos: u32) -> Option<FileAnswer>
    ensures { result ≡ attr_said attr.now secs nanos }
{
    match Timeout::new(secs, nanos) {
        Some(timeout) => Some(FileAnswer::HasAttr(attr_of(attr), timeout)),
        None => None,
    }
}

/// The answer of a file that was opened.
pub fn open_said(handle: u64, flags: u32) -> FileAnswer
    ensures { result ≡ open_said handle flags }
{
    FileAnswer::Opened {
        handle: Some(handle),
        options: OpenOptions::from_bits_retain(flags),
    }
}

/// The answer of a file system's numbers.
pub fn statfs_said(statfs: &FsStatfs) -> FileAnswer
    ensures { result ≡ statfs_said statfs.now }
{
    FileAnswer::Stats(StatVfs {
        f_blocks: statfs.blocks,
        f_bfree: statfs.bfree,
        f_bavail: statfs.bavail,
        f_files: statfs.files,
        f_ffree: statfs.ffree,
        f_bsize: u64::from(statfs.bsize),
        f_namemax: u64::from(statfs.namelen),
        f_frsize: u64::from(statfs.frsize),
    })
}

/// The answer of INIT: the options that the file system asks for.
pub fn init_options_said(wanted: u64) -> FileAnswer
    ensures { result ≡ init_options_said wanted }
{
    FileAnswer::Wants(FsOptions::from_bits_retain(wanted))
}
