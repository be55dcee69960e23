//! Records of replies.

ghost use Rattle.std.specs.Prelude.{refl};
ghost use Rattle.std.proofs.Common.{rules};
ghost use Rattle.fuse_wire.specs.Records.{out_header, statfs_out, entry_out, attr_out, open_out, write_out};
ghost use Rattle.fuse_wire.specs.Records.{getxattr_out};
ghost use Rattle.fuse_wire.specs.Records.{lk_out, init_out, lseek_out, dirent, direntplus};

use fuse_base::{Attr, FileLock, Kstatfs};
use vm_values::{ByteValued, get_fields, put_fields};

/// `struct fuse_out_header`: 16 bytes.
#[derive(Clone, Copy, Debug, Default, PartialEq)]
pub struct OutHeader {
    pub len: u32,
    pub error: i32,
    pub unique: u64,
}

impl ByteValued for OutHeader {
    ghost SIZE = { 16 };

    const SIZE: usize = 16;

    ghost fields = { out_header };

    fn put_bytes(&self, out: &mut [u8]) {
        put_fields!(self, out; len error unique);
    }

    fn get_bytes(bytes: &[u8]) -> Self {
        get_fields!(OutHeader, bytes; len error unique)
    }

    ghost lawful = { (λ x y. refl, λ x y h. Prim.search rules, Prim.search rules) };
}

/// `struct fuse_statfs_out`: 80 bytes.
#[derive(Clone, Copy, Debug, Default, PartialEq)]
pub struct StatfsOut {
    pub st: Kstatfs,
}

impl ByteValued for StatfsOut {
    ghost SIZE = { 80 };

    const SIZE: usize = 80;

    ghost fields = { statfs_out };

    fn put_bytes(&self, out: &mut [u8]) {
        put_fields!(self, out; st);
    }

    fn get_bytes(bytes: &[u8]) -> Self {
        get_fields!(StatfsOut, bytes; st)
    }

    ghost lawful = { (λ x y. refl, λ x y h. Prim.search rules, Prim.search rules) };
}

/// `struct fuse_entry_out`: 128 bytes.
#[derive(Clone, Copy, Debug, Default, PartialEq)]
pub struct EntryOut {
    pub nodeid: u64,
    pub generation: u64,
    pub entry_valid: u64,
    pub attr_valid: u64,
    pub entry_valid_nsec: u32,
    pub attr_valid_nsec: u32,
    pub attr: Attr,
}

impl ByteValued for EntryOut {
    ghost SIZE = { 128 };

    const SIZE: usize = 128;

    ghost fields = { entry_out };

    fn put_bytes(&self, out: &mut [u8]) {
        put_fields!(self, out;
            nodeid generation entry_valid attr_valid entry_valid_nsec attr_valid_nsec attr
        );
    }

    fn get_bytes(bytes: &[u8]) -> Self {
        get_fields!(EntryOut, bytes;
            nodeid generation entry_valid attr_valid entry_valid_nsec attr_valid_nsec attr
        )
    }

    ghost lawful = { (λ x y. refl, λ x y h. Prim.search rules, Prim.search rules) };
}

/// `struct fuse_attr_out`: 104 bytes.
#[derive(Clone, Copy, Debug, Default, PartialEq)]
pub struct AttrOut {
    pub attr_valid: u64,
    pub attr_valid_nsec: u32,
    pub dummy: u32,
    pub attr: Attr,
}

impl ByteValued for AttrOut {
    ghost SIZE = { 104 };

    const SIZE: usize = 104;

    ghost fields = { attr_out };

    fn put_bytes(&self, out: &mut [u8]) {
        put_fields!(self, out; attr_valid attr_valid_nsec dummy attr);
    }

    fn get_bytes(bytes: &[u8]) -> Self {
        get_fields!(AttrOut, bytes; attr_valid attr_valid_nsec dummy attr)
    }

    ghost lawful = { (λ x y. refl, λ x y h. Prim.search rules, Prim.search rules) };
}

/// `struct fuse_open_out`: 16 bytes.
#[derive(Clone, Copy, Debug, Default, PartialEq)]
pub struct OpenOut {
    pub fh: u64,
    pub open_flags: u32,
    pub padding: u32,
}

impl ByteValued for OpenOut {
    ghost SIZE = { 16 };

    const SIZE: usize = 16;

    ghost fields = { open_out };

    fn put_bytes(&self, out: &mut [u8]) {
        put_fields!(self, out; fh open_flags padding);
    }

    fn get_bytes(bytes: &[u8]) -> Self {
        get_fields!(OpenOut, bytes; fh open_flags padding)
    }

    ghost lawful = { (λ x y. refl, λ x y h. Prim.search rules, Prim.search rules) };
}

/// `struct fuse_write_out`: 8 bytes.
#[derive(Clone, Copy, Debug, Default, PartialEq)]
pub struct WriteOut {
    pub size: u32,
    pub padding: u32,
}

impl ByteValued for WriteOut {
    ghost SIZE = { 8 };

    const SIZE: usize = 8;

    ghost fields = { write_out };

    fn put_bytes(&self, out: &mut [u8]) {
        put_fields!(self, out; size padding);
    }

    fn get_bytes(bytes: &[u8]) -> Self {
        get_fields!(WriteOut, bytes; size padding)
    }

    ghost lawful = { (λ x y. refl, λ x y h. Prim.search rules, Prim.search rules) };
}

/// `struct fuse_getxattr_out`: 8 bytes.
#[derive(Clone, Copy, Debug, Default, PartialEq)]
pub struct GetxattrOut {
    pub size: u32,
    pub padding: u32,
}

impl ByteValued for GetxattrOut {
    ghost SIZE = { 8 };

    const SIZE: usize = 8;

    ghost fields = { getxattr_out };

    fn put_bytes(&self, out: &mut [u8]) {
        put_fields!(self, out; size padding);
    }

    fn get_bytes(bytes: &[u8]) -> Self {
        get_fields!(GetxattrOut, bytes; size padding)
    }

    ghost lawful = { (λ x y. refl, λ x y h. Prim.search rules, Prim.search rules) };
}

/// `struct fuse_lk_out`: 24 bytes.
#[derive(Clone, Copy, Debug, Default, PartialEq)]
pub struct LkOut {
    pub lk: FileLock,
}

impl ByteValued for LkOut {
    ghost SIZE = { 24 };

    const SIZE: usize = 24;

    ghost fields = { lk_out };

    fn put_bytes(&self, out: &mut [u8]) {
        put_fields!(self, out; lk);
    }

    fn get_bytes(bytes: &[u8]) -> Self {
        get_fields!(LkOut, bytes; lk)
    }

    ghost lawful = { (λ x y. refl, λ x y h. Prim.search rules, Prim.search rules) };
}

/// `struct fuse_init_out`: 64 bytes.
#[derive(Clone, Copy, Debug, Default, PartialEq)]
pub struct InitOut {
    pub major: u32,
    pub minor: u32,
    pub max_readahead: u32,
    pub flags: u32,
    pub max_background: u16,
    pub congestion_threshold: u16,
    pub max_write: u32,
    pub time_gran: u32,
    pub max_pages: u16,
    pub map_alignment: u16,
    pub flags2: u32,
    pub unused: [u32; 7],
}

impl ByteValued for InitOut {
    ghost SIZE = { 64 };

    const SIZE: usize = 64;

    ghost fields = { init_out };

    fn put_bytes(&self, out: &mut [u8]) {
        put_fields!(self, out;
            major minor max_readahead flags max_background congestion_threshold max_write
            time_gran max_pages map_alignment flags2 unused
        );
    }

    fn get_bytes(bytes: &[u8]) -> Self {
        get_fields!(InitOut, bytes;
            major minor max_readahead flags max_background congestion_threshold max_write
            time_gran max_pages map_alignment flags2 unused
        )
    }

    ghost lawful = { (λ x y. refl, λ x y h. Prim.search rules, Prim.search rules) };
}

/// `struct fuse_lseek_out`: 8 bytes.
#[derive(Clone, Copy, Debug, Default, PartialEq)]
pub struct LseekOut {
    pub offset: u64,
}

impl ByteValued for LseekOut {
    ghost SIZE = { 8 };

    const SIZE: usize = 8;

    ghost fields = { lseek_out };

    fn put_bytes(&self, out: &mut [u8]) {
        put_fields!(self, out; offset);
    }

    fn get_bytes(bytes: &[u8]) -> Self {
        get_fields!(LseekOut, bytes; offset)
    }

    ghost lawful = { (λ x y. refl, λ x y h. Prim.search rules, Prim.search rules) };
}

/// `struct fuse_dirent`: 24 bytes.
#[derive(Clone, Copy, Debug, Default, PartialEq)]
pub struct Dirent {
    pub ino: u64,
    pub off: u64,
    pub namelen: u32,
    pub type_: u32,
}

impl ByteValued for Dirent {
    ghost SIZE = { 24 };

    const SIZE: usize = 24;

    ghost fields = { dirent };

    fn put_bytes(&self, out: &mut [u8]) {
        put_fields!(self, out; ino off namelen type_);
    }

    fn get_bytes(bytes: &[u8]) -> Self {
        get_fields!(Dirent, bytes; ino off namelen type_)
    }

    ghost lawful = { (λ x y. refl, λ x y h. Prim.search rules, Prim.search rules) };
}

/// `struct fuse_direntplus`: 152 bytes.
#[derive(Clone, Copy, Debug, Default, PartialEq)]
pub struct Direntplus {
    pub entry_out: EntryOut,
    pub dirent: Dirent,
}

impl ByteValued for Direntplus {
    ghost SIZE = { 152 };

    const SIZE: usize = 152;

    ghost fields = { direntplus };

    fn put_bytes(&self, out: &mut [u8]) {
        put_fields!(self, out; entry_out dirent);
    }

    fn get_bytes(bytes: &[u8]) -> Self {
        get_fields!(Direntplus, bytes; entry_out dirent)
    }

    ghost lawful = { (λ x y. refl, λ x y h. Prim.search rules, Prim.search rules) };
}
