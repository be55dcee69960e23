//! Records of replies, made from a file system's answers.

ghost use Rattle.std.specs.Prelude.{◌≡◌, ◌<◌, ◌^◌, length, option_map};
ghost use Rattle.fuse_fs.specs.Answers.{listed};
ghost use Rattle.fuse_fs.specs.Replies.{attr_out_of, open_out_of, write_out_of, lseek_out_of};
ghost use Rattle.fuse_fs.specs.Replies.{getxattr_out_of, dirent_of};

use crate::answers::Timeout;
use crate::directory::DirEntry;
use crate::file_system::FileNumber;
use bitflags::Flags;
use fuse_base::{Attr, OpenOptions};
use fuse_wire::{AttrOut, Dirent, GetxattrOut, LseekOut, OpenOut, WriteOut};

/// A node's attributes and their timeout, as `struct fuse_attr_out`: 104 bytes.
pub fn attr_out(attr: Attr, timeout: Timeout) -> AttrOut
    ensures { result ≡ attr_out_of attr timeout }
{
    AttrOut {
        attr_valid: timeout.secs(),
        attr_valid_nsec: timeout.nanos(),
        dummy: 0,
        attr,
    }
}

/// An open file, as `struct fuse_open_out`: 16 bytes. `fh` is 0 without a handle.
pub fn open_out<H: FileNumber>(handle: Option<H>, options: OpenOptions) -> OpenOut
    ensures { result ≡ open_out_of (option_map H.number handle) options.0 }
{
    let fh = match handle {
        Some(handle) => handle.as_number(),
        None => 0,
    };
    OpenOut {
        fh,
        open_flags: options.bits(),
        padding: 0,
    }
}

/// The number of bytes written, as `struct fuse_write_out`: 8 bytes.
pub fn write_out(count: u32) -> WriteOut
    ensures { result ≡ write_out_of count }
{
    WriteOut {
        size: count,
        padding: 0,
    }
}

/// An offset in a file, in bytes from its start, as `struct fuse_lseek_out`: 8 bytes.
pub fn lseek_out(offset: u64) -> LseekOut
    ensures { result ≡ lseek_out_of offset }
{
    LseekOut { offset }
}

/// The length of a value or of a list of names in bytes, as `struct fuse_getxattr_out`: 8 bytes.
pub fn getxattr_out(count: u32) -> GetxattrOut
    ensures { result ≡ getxattr_out_of count }
{
    GetxattrOut {
        size: count,
        padding: 0,
    }
}

/// An entry of a directory without its name, as `struct fuse_dirent`: 24 bytes. `namelen` is the
/// name's length in bytes, below 2^32.
pub fn dirent(entry: &DirEntry<'_>) -> Dirent
    requires { length entry.now.name.now < 2 ^ 32 }
    ensures { result ≡ dirent_of (listed entry.now) }
{
    Dirent {
        ino: entry.ino,
        off: entry.offset,
        namelen: entry.name.len() as u32,
        type_: entry.type_,
    }
}
