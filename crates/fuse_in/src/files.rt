//! Records of requests on an open file.

ghost use Rattle.std.specs.Prelude.{refl};
ghost use Rattle.std.proofs.Common.{rules};
ghost use Rattle.fuse_in.specs.Shapes.{fields_by};
ghost use Rattle.fuse_in.specs.Records.{open_in, create_in, release_in, flush_in, read_in, write_in};
ghost use Rattle.fuse_in.specs.Records.{fsync_in, fallocate_in, lseek_in, copyfilerange_in, lk_in};

use crate::record::InRecord;
use fuse_base::FileLock;
use vm_values::{ByteValued, get_fields, put_fields};

/// `struct fuse_open_in`: 8 bytes.
#[derive(Clone, Copy, Debug, Default, PartialEq)]
pub struct OpenIn {
    pub flags: u32,
    pub open_flags: u32,
}

impl ByteValued for OpenIn {
    ghost SIZE = { 8 };

    const SIZE: usize = 8;

    ghost fields = { fields_by open_in };

    fn put_bytes(&self, out: &mut [u8]) {
        put_fields!(self, out; flags open_flags);
    }

    fn get_bytes(bytes: &[u8]) -> Self {
        get_fields!(OpenIn, bytes; flags open_flags)
    }

    ghost lawful = { (λ x y. refl, λ x y h. Prim.search rules, Prim.search rules) };
}

impl InRecord for OpenIn {
    ghost shape = { open_in };

    ghost of_shape = { (λ x. refl, λ x. refl, refl) };
}

/// `struct fuse_create_in`: 16 bytes.
#[derive(Clone, Copy, Debug, Default, PartialEq)]
pub struct CreateIn {
    pub flags: u32,
    pub mode: u32,
    pub umask: u32,
    pub open_flags: u32,
}

impl ByteValued for CreateIn {
    ghost SIZE = { 16 };

    const SIZE: usize = 16;

    ghost fields = { fields_by create_in };

    fn put_bytes(&self, out: &mut [u8]) {
        put_fields!(self, out; flags mode umask open_flags);
    }

    fn get_bytes(bytes: &[u8]) -> Self {
        get_fields!(CreateIn, bytes; flags mode umask open_flags)
    }

    ghost lawful = { (λ x y. refl, λ x y h. Prim.search rules, Prim.search rules) };
}

impl InRecord for CreateIn {
    ghost shape = { create_in };

    ghost of_shape = { (λ x. refl, λ x. refl, refl) };
}

/// `struct fuse_release_in`: 24 bytes.
#[derive(Clone, Copy, Debug, Default, PartialEq)]
pub struct ReleaseIn {
    pub fh: u64,
    pub flags: u32,
    pub release_flags: u32,
    pub lock_owner: u64,
}

impl ByteValued for ReleaseIn {
    ghost SIZE = { 24 };

    const SIZE: usize = 24;

    ghost fields = { fields_by release_in };

    fn put_bytes(&self, out: &mut [u8]) {
        put_fields!(self, out; fh flags release_flags lock_owner);
    }

    fn get_bytes(bytes: &[u8]) -> Self {
        get_fields!(ReleaseIn, bytes; fh flags release_flags lock_owner)
    }

    ghost lawful = { (λ x y. refl, λ x y h. Prim.search rules, Prim.search rules) };
}

impl InRecord for ReleaseIn {
    ghost shape = { release_in };

    ghost of_shape = { (λ x. refl, λ x. refl, refl) };
}

/// `struct fuse_flush_in`: 24 bytes.
#[derive(Clone, Copy, Debug, Default, PartialEq)]
pub struct FlushIn {
    pub fh: u64,
    pub unused: u32,
    pub padding: u32,
    pub lock_owner: u64,
}

impl ByteValued for FlushIn {
    ghost SIZE = { 24 };

    const SIZE: usize = 24;

    ghost fields = { fields_by flush_in };

    fn put_bytes(&self, out: &mut [u8]) {
        put_fields!(self, out; fh unused padding lock_owner);
    }

    fn get_bytes(bytes: &[u8]) -> Self {
        get_fields!(FlushIn, bytes; fh unused padding lock_owner)
    }

    ghost lawful = { (λ x y. refl, λ x y h. Prim.search rules, Prim.search rules) };
}

impl InRecord for FlushIn {
    ghost shape = { flush_in };

    ghost of_shape = { (λ x. refl, λ x. refl, refl) };
}

/// `struct fuse_read_in`: 40 bytes.
#[derive(Clone, Copy, Debug, Default, PartialEq)]
pub struct ReadIn {
    pub fh: u64,
    pub offset: u64,
    pub size: u32,
    pub read_flags: u32,
    pub lock_owner: u64,
    pub flags: u32,
    pub padding: u32,
}

impl ByteValued for ReadIn {
    ghost SIZE = { 40 };

    const SIZE: usize = 40;

    ghost fields = { fields_by read_in };

    fn put_bytes(&self, out: &mut [u8]) {
        put_fields!(self, out; fh offset size read_flags lock_owner flags padding);
    }

    fn get_bytes(bytes: &[u8]) -> Self {
        get_fields!(ReadIn, bytes; fh offset size read_flags lock_owner flags padding)
    }

    ghost lawful = { (λ x y. refl, λ x y h. Prim.search rules, Prim.search rules) };
}

impl InRecord for ReadIn {
    ghost shape = { read_in };

    ghost of_shape = { (λ x. refl, λ x. refl, refl) };
}

/// `struct fuse_write_in`: 40 bytes.
#[derive(Clone, Copy, Debug, Default, PartialEq)]
pub struct WriteIn {
    pub fh: u64,
    pub offset: u64,
    pub size: u32,
    pub write_flags: u32,
    pub lock_owner: u64,
    pub flags: u32,
    pub padding: u32,
}

impl ByteValued for WriteIn {
    ghost SIZE = { 40 };

    const SIZE: usize = 40;

    ghost fields = { fields_by write_in };

    fn put_bytes(&self, out: &mut [u8]) {
        put_fields!(self, out; fh offset size write_flags lock_owner flags padding);
    }

    fn get_bytes(bytes: &[u8]) -> Self {
        get_fields!(WriteIn, bytes; fh offset size write_flags lock_owner flags padding)
    }

    ghost lawful = { (λ x y. refl, λ x y h. Prim.search rules, Prim.search rules) };
}

impl InRecord for WriteIn {
    ghost shape = { write_in };

    ghost of_shape = { (λ x. refl, λ x. refl, refl) };
}

/// `struct fuse_fsync_in`: 16 bytes.
#[derive(Clone, Copy, Debug, Default, PartialEq)]
pub struct FsyncIn {
    pub fh: u64,
    pub fsync_flags: u32,
    pub padding: u32,
}

impl ByteValued for FsyncIn {
    ghost SIZE = { 16 };

    const SIZE: usize = 16;

    ghost fields = { fields_by fsync_in };

    fn put_bytes(&self, out: &mut [u8]) {
        put_fields!(self, out; fh fsync_flags padding);
    }

    fn get_bytes(bytes: &[u8]) -> Self {
        get_fields!(FsyncIn, bytes; fh fsync_flags padding)
    }

    ghost lawful = { (λ x y. refl, λ x y h. Prim.search rules, Prim.search rules) };
}

impl InRecord for FsyncIn {
    ghost shape = { fsync_in };

    ghost of_shape = { (λ x. refl, λ x. refl, refl) };
}

/// `struct fuse_fallocate_in`: 32 bytes.
#[derive(Clone, Copy, Debug, Default, PartialEq)]
pub struct FallocateIn {
    pub fh: u64,
    pub offset: u64,
    pub length: u64,
    pub mode: u32,
    pub padding: u32,
}

impl ByteValued for FallocateIn {
    ghost SIZE = { 32 };

    const SIZE: usize = 32;

    ghost fields = { fields_by fallocate_in };

    fn put_bytes(&self, out: &mut [u8]) {
        put_fields!(self, out; fh offset length mode padding);
    }

    fn get_bytes(bytes: &[u8]) -> Self {
        get_fields!(FallocateIn, bytes; fh offset length mode padding)
    }

    ghost lawful = { (λ x y. refl, λ x y h. Prim.search rules, Prim.search rules) };
}

impl InRecord for FallocateIn {
    ghost shape = { fallocate_in };

    ghost of_shape = { (λ x. refl, λ x. refl, refl) };
}

/// `struct fuse_lseek_in`: 24 bytes.
#[derive(Clone, Copy, Debug, Default, PartialEq)]
pub struct LseekIn {
    pub fh: u64,
    pub offset: u64,
    pub whence: u32,
    pub padding: u32,
}

impl ByteValued for LseekIn {
    ghost SIZE = { 24 };

    const SIZE: usize = 24;

    ghost fields = { fields_by lseek_in };

    fn put_bytes(&self, out: &mut [u8]) {
        put_fields!(self, out; fh offset whence padding);
    }

    fn get_bytes(bytes: &[u8]) -> Self {
        get_fields!(LseekIn, bytes; fh offset whence padding)
    }

    ghost lawful = { (λ x y. refl, λ x y h. Prim.search rules, Prim.search rules) };
}

impl InRecord for LseekIn {
    ghost shape = { lseek_in };

    ghost of_shape = { (λ x. refl, λ x. refl, refl) };
}

/// `struct fuse_copy_file_range_in`: 56 bytes.
#[derive(Clone, Copy, Debug, Default, PartialEq)]
pub struct CopyfilerangeIn {
    pub fh_in: u64,
    pub off_in: u64,
    pub nodeid_out: u64,
    pub fh_out: u64,
    pub off_out: u64,
    pub len: u64,
    pub flags: u64,
}

impl ByteValued for CopyfilerangeIn {
    ghost SIZE = { 56 };

    const SIZE: usize = 56;

    ghost fields = { fields_by copyfilerange_in };

    fn put_bytes(&self, out: &mut [u8]) {
        put_fields!(self, out; fh_in off_in nodeid_out fh_out off_out len flags);
    }

    fn get_bytes(bytes: &[u8]) -> Self {
        get_fields!(CopyfilerangeIn, bytes; fh_in off_in nodeid_out fh_out off_out len flags)
    }

    ghost lawful = { (λ x y. refl, λ x y h. Prim.search rules, Prim.search rules) };
}

impl InRecord for CopyfilerangeIn {
    ghost shape = { copyfilerange_in };

    ghost of_shape = { (λ x. refl, λ x. refl, refl) };
}

/// `struct fuse_lk_in`: 48 bytes.
#[derive(Clone, Copy, Debug, Default, PartialEq)]
pub struct LkIn {
    pub fh: u64,
    pub owner: u64,
    pub lk: FileLock,
    pub lk_flags: u32,
    pub padding: u32,
}

impl ByteValued for LkIn {
    ghost SIZE = { 48 };

    const SIZE: usize = 48;

    ghost fields = { lk_in };

    fn put_bytes(&self, out: &mut [u8]) {
        put_fields!(self, out; fh owner lk lk_flags padding);
    }

    fn get_bytes(bytes: &[u8]) -> Self {
        get_fields!(LkIn, bytes; fh owner lk lk_flags padding)
    }

    ghost lawful = { (λ x y. refl, λ x y h. Prim.search rules, Prim.search rules) };
}
