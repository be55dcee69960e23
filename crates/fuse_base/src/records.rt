//! Records that requests and replies share (linux/fuse.h). Their numbers are little-endian.

ghost use Rattle.std.specs.Prelude.{refl};
ghost use Rattle.std.proofs.Common.{rules};
ghost use Rattle.fuse_base.specs.Records.{attr, kstatfs, file_lock};

use crate::ids::{GuestGid, GuestUid};
use vm_values::{ByteValued, get_fields, put_fields};

/// `struct fuse_attr`: 88 bytes. `size` counts bytes, and `blocks` units of 512 bytes. A time is
/// seconds since 1970 and nanoseconds.
#[derive(Clone, Copy, Debug, Default, PartialEq)]
pub struct Attr {
    pub ino: u64,
    pub size: u64,
    pub blocks: u64,
    pub atime: u64,
    pub mtime: u64,
    pub ctime: u64,
    pub atimensec: u32,
    pub mtimensec: u32,
    pub ctimensec: u32,
    pub mode: u32,
    pub nlink: u32,
    pub uid: GuestUid,
    pub gid: GuestGid,
    pub rdev: u32,
    pub blksize: u32,
    pub flags: u32,
}

impl ByteValued for Attr {
    ghost SIZE = { 88 };

    const SIZE: usize = 88;

    ghost fields = { attr };

    fn put_bytes(&self, out: &mut [u8]) {
        put_fields!(self, out;
            ino size blocks atime mtime ctime atimensec mtimensec ctimensec mode nlink uid gid
            rdev blksize flags
        );
    }

    fn get_bytes(bytes: &[u8]) -> Self {
        get_fields!(Attr, bytes;
            ino size blocks atime mtime ctime atimensec mtimensec ctimensec mode nlink uid gid
            rdev blksize flags
        )
    }

    ghost lawful = { (λ x y. refl, λ x y h. Prim.search rules, Prim.search rules) };
}

/// `struct fuse_kstatfs`: 80 bytes. `blocks`, `bfree` and `bavail` count units of `frsize` bytes.
#[derive(Clone, Copy, Debug, Default, PartialEq)]
pub struct Kstatfs {
    pub blocks: u64,
    pub bfree: u64,
    pub bavail: u64,
    pub files: u64,
    pub ffree: u64,
    pub bsize: u32,
    pub namelen: u32,
    pub frsize: u32,
    pub padding: u32,
    pub spare: [u32; 6],
}

impl ByteValued for Kstatfs {
    ghost SIZE = { 80 };

    const SIZE: usize = 80;

    ghost fields = { kstatfs };

    fn put_bytes(&self, out: &mut [u8]) {
        put_fields!(self, out; blocks bfree bavail files ffree bsize namelen frsize padding spare);
    }

    fn get_bytes(bytes: &[u8]) -> Self {
        get_fields!(Kstatfs, bytes;
            blocks bfree bavail files ffree bsize namelen frsize padding spare
        )
    }

    ghost lawful = { (λ x y. refl, λ x y h. Prim.search rules, Prim.search rules) };
}

/// `struct fuse_file_lock`: 24 bytes. `start` and `end` are the first and the last byte. `type_` is
/// `l_type` of `fcntl(2)`.
#[derive(Clone, Copy, Debug, Default, PartialEq)]
pub struct FileLock {
    pub start: u64,
    pub end: u64,
    pub type_: u32,
    pub pid: u32,
}

impl ByteValued for FileLock {
    ghost SIZE = { 24 };

    const SIZE: usize = 24;

    ghost fields = { file_lock };

    fn put_bytes(&self, out: &mut [u8]) {
        put_fields!(self, out; start end type_ pid);
    }

    fn get_bytes(bytes: &[u8]) -> Self {
        get_fields!(FileLock, bytes; start end type_ pid)
    }

    ghost lawful = { (λ x y. refl, λ x y h. Prim.search rules, Prim.search rules) };
}
