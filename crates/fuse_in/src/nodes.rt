//! Records of requests on a node.

ghost use Rattle.std.specs.Prelude.{refl};
ghost use Rattle.std.proofs.Common.{rules};
ghost use Rattle.fuse_in.specs.Shapes.{fields_by};
ghost use Rattle.fuse_in.specs.Records.{getattr_in, setattr_in, mknod_in, mkdir_in, rename_in, rename2_in};
ghost use Rattle.fuse_in.specs.Records.{link_in, access_in};
ghost use Rattle.fuse_in.specs.Records.{setxattr_in, setxattr_in_compat, getxattr_in};

use crate::record::InRecord;
use fuse_base::{GuestGid, GuestUid};
use vm_values::{ByteValued, get_fields, put_fields};

/// `struct fuse_getattr_in`: 16 bytes.
#[derive(Clone, Copy, Debug, Default, PartialEq)]
pub struct GetattrIn {
    pub flags: u32,
    pub dummy: u32,
    pub fh: u64,
}

impl ByteValued for GetattrIn {
    ghost SIZE = { 16 };

    const SIZE: usize = 16;

    ghost fields = { fields_by getattr_in };

    fn put_bytes(&self, out: &mut [u8]) {
        put_fields!(self, out; flags dummy fh);
    }

    fn get_bytes(bytes: &[u8]) -> Self {
        get_fields!(GetattrIn, bytes; flags dummy fh)
    }

    ghost lawful = { (λ x y. refl, λ x y h. Prim.search rules, Prim.search rules) };
}

impl InRecord for GetattrIn {
    ghost shape = { getattr_in };

    ghost of_shape = { (λ x. refl, λ x. refl, refl) };
}

/// `struct fuse_setattr_in`: 88 bytes.
#[derive(Clone, Copy, Debug, Default, PartialEq)]
pub struct SetattrIn {
    pub valid: u32,
    pub padding: u32,
    pub fh: u64,
    pub size: u64,
    pub lock_owner: u64,
    pub atime: u64,
    pub mtime: u64,
    pub ctime: u64,
    pub atimensec: u32,
    pub mtimensec: u32,
    pub ctimensec: u32,
    pub mode: u32,
    pub unused4: u32,
    pub uid: GuestUid,
    pub gid: GuestGid,
    pub unused5: u32,
}

impl ByteValued for SetattrIn {
    ghost SIZE = { 88 };

    const SIZE: usize = 88;

    ghost fields = { fields_by setattr_in };

    fn put_bytes(&self, out: &mut [u8]) {
        put_fields!(self, out;
            valid padding fh size lock_owner atime mtime ctime atimensec mtimensec ctimensec
            mode unused4 uid gid unused5
        );
    }

    fn get_bytes(bytes: &[u8]) -> Self {
        get_fields!(SetattrIn, bytes;
            valid padding fh size lock_owner atime mtime ctime atimensec mtimensec ctimensec
            mode unused4 uid gid unused5
        )
    }

    ghost lawful = { (λ x y. refl, λ x y h. Prim.search rules, Prim.search rules) };
}

impl InRecord for SetattrIn {
    ghost shape = { setattr_in };

    ghost of_shape = { (λ x. refl, λ x. refl, refl) };
}

/// `struct fuse_mknod_in`: 16 bytes.
#[derive(Clone, Copy, Debug, Default, PartialEq)]
pub struct MknodIn {
    pub mode: u32,
    pub rdev: u32,
    pub umask: u32,
    pub padding: u32,
}

impl ByteValued for MknodIn {
    ghost SIZE = { 16 };

    const SIZE: usize = 16;

    ghost fields = { fields_by mknod_in };

    fn put_bytes(&self, out: &mut [u8]) {
        put_fields!(self, out; mode rdev umask padding);
    }

    fn get_bytes(bytes: &[u8]) -> Self {
        get_fields!(MknodIn, bytes; mode rdev umask padding)
    }

    ghost lawful = { (λ x y. refl, λ x y h. Prim.search rules, Prim.search rules) };
}

impl InRecord for MknodIn {
    ghost shape = { mknod_in };

    ghost of_shape = { (λ x. refl, λ x. refl, refl) };
}

/// `struct fuse_mkdir_in`: 8 bytes.
#[derive(Clone, Copy, Debug, Default, PartialEq)]
pub struct MkdirIn {
    pub mode: u32,
    pub umask: u32,
}

impl ByteValued for MkdirIn {
    ghost SIZE = { 8 };

    const SIZE: usize = 8;

    ghost fields = { fields_by mkdir_in };

    fn put_bytes(&self, out: &mut [u8]) {
        put_fields!(self, out; mode umask);
    }

    fn get_bytes(bytes: &[u8]) -> Self {
        get_fields!(MkdirIn, bytes; mode umask)
    }

    ghost lawful = { (λ x y. refl, λ x y h. Prim.search rules, Prim.search rules) };
}

impl InRecord for MkdirIn {
    ghost shape = { mkdir_in };

    ghost of_shape = { (λ x. refl, λ x. refl, refl) };
}

/// `struct fuse_rename_in`: 8 bytes.
#[derive(Clone, Copy, Debug, Default, PartialEq)]
pub struct RenameIn {
    pub newdir: u64,
}

impl ByteValued for RenameIn {
    ghost SIZE = { 8 };

    const SIZE: usize = 8;

    ghost fields = { fields_by rename_in };

    fn put_bytes(&self, out: &mut [u8]) {
        put_fields!(self, out; newdir);
    }

    fn get_bytes(bytes: &[u8]) -> Self {
        get_fields!(RenameIn, bytes; newdir)
    }

    ghost lawful = { (λ x y. refl, λ x y h. Prim.search rules, Prim.search rules) };
}

impl InRecord for RenameIn {
    ghost shape = { rename_in };

    ghost of_shape = { (λ x. refl, λ x. refl, refl) };
}

/// `struct fuse_rename2_in`: 16 bytes.
#[derive(Clone, Copy, Debug, Default, PartialEq)]
pub struct Rename2In {
    pub newdir: u64,
    pub flags: u32,
    pub padding: u32,
}

impl ByteValued for Rename2In {
    ghost SIZE = { 16 };

    const SIZE: usize = 16;

    ghost fields = { fields_by rename2_in };

    fn put_bytes(&self, out: &mut [u8]) {
        put_fields!(self, out; newdir flags padding);
    }

    fn get_bytes(bytes: &[u8]) -> Self {
        get_fields!(Rename2In, bytes; newdir flags padding)
    }

    ghost lawful = { (λ x y. refl, λ x y h. Prim.search rules, Prim.search rules) };
}

impl InRecord for Rename2In {
    ghost shape = { rename2_in };

    ghost of_shape = { (λ x. refl, λ x. refl, refl) };
}

/// `struct fuse_link_in`: 8 bytes.
#[derive(Clone, Copy, Debug, Default, PartialEq)]
pub struct LinkIn {
    pub oldnodeid: u64,
}

impl ByteValued for LinkIn {
    ghost SIZE = { 8 };

    const SIZE: usize = 8;

    ghost fields = { fields_by link_in };

    fn put_bytes(&self, out: &mut [u8]) {
        put_fields!(self, out; oldnodeid);
    }

    fn get_bytes(bytes: &[u8]) -> Self {
        get_fields!(LinkIn, bytes; oldnodeid)
    }

    ghost lawful = { (λ x y. refl, λ x y h. Prim.search rules, Prim.search rules) };
}

impl InRecord for LinkIn {
    ghost shape = { link_in };

    ghost of_shape = { (λ x. refl, λ x. refl, refl) };
}

/// `struct fuse_access_in`: 8 bytes.
#[derive(Clone, Copy, Debug, Default, PartialEq)]
pub struct AccessIn {
    pub mask: u32,
    pub padding: u32,
}

impl ByteValued for AccessIn {
    ghost SIZE = { 8 };

    const SIZE: usize = 8;

    ghost fields = { fields_by access_in };

    fn put_bytes(&self, out: &mut [u8]) {
        put_fields!(self, out; mask padding);
    }

    fn get_bytes(bytes: &[u8]) -> Self {
        get_fields!(AccessIn, bytes; mask padding)
    }

    ghost lawful = { (λ x y. refl, λ x y h. Prim.search rules, Prim.search rules) };
}

impl InRecord for AccessIn {
    ghost shape = { access_in };

    ghost of_shape = { (λ x. refl, λ x. refl, refl) };
}

/// `struct fuse_setxattr_in`: 16 bytes.
#[derive(Clone, Copy, Debug, Default, PartialEq)]
pub struct SetxattrIn {
    pub size: u32,
    pub flags: u32,
    pub setxattr_flags: u32,
    pub padding: u32,
}

impl ByteValued for SetxattrIn {
    ghost SIZE = { 16 };

    const SIZE: usize = 16;

    ghost fields = { fields_by setxattr_in };

    fn put_bytes(&self, out: &mut [u8]) {
        put_fields!(self, out; size flags setxattr_flags padding);
    }

    fn get_bytes(bytes: &[u8]) -> Self {
        get_fields!(SetxattrIn, bytes; size flags setxattr_flags padding)
    }

    ghost lawful = { (λ x y. refl, λ x y h. Prim.search rules, Prim.search rules) };
}

impl InRecord for SetxattrIn {
    ghost shape = { setxattr_in };

    ghost of_shape = { (λ x. refl, λ x. refl, refl) };
}

/// `struct fuse_setxattr_in` without FUSE_SETXATTR_EXT (FUSE_COMPAT_SETXATTR_IN_SIZE): 8 bytes.
#[derive(Clone, Copy, Debug, Default, PartialEq)]
pub struct SetxattrInCompat {
    pub size: u32,
    pub flags: u32,
}

impl ByteValued for SetxattrInCompat {
    ghost SIZE = { 8 };

    const SIZE: usize = 8;

    ghost fields = { fields_by setxattr_in_compat };

    fn put_bytes(&self, out: &mut [u8]) {
        put_fields!(self, out; size flags);
    }

    fn get_bytes(bytes: &[u8]) -> Self {
        get_fields!(SetxattrInCompat, bytes; size flags)
    }

    ghost lawful = { (λ x y. refl, λ x y h. Prim.search rules, Prim.search rules) };
}

impl InRecord for SetxattrInCompat {
    ghost shape = { setxattr_in_compat };

    ghost of_shape = { (λ x. refl, λ x. refl, refl) };
}

/// `struct fuse_getxattr_in`: 8 bytes.
#[derive(Clone, Copy, Debug, Default, PartialEq)]
pub struct GetxattrIn {
    pub size: u32,
    pub padding: u32,
}

impl ByteValued for GetxattrIn {
    ghost SIZE = { 8 };

    const SIZE: usize = 8;

    ghost fields = { fields_by getxattr_in };

    fn put_bytes(&self, out: &mut [u8]) {
        put_fields!(self, out; size padding);
    }

    fn get_bytes(bytes: &[u8]) -> Self {
        get_fields!(GetxattrIn, bytes; size padding)
    }

    ghost lawful = { (λ x y. refl, λ x y h. Prim.search rules, Prim.search rules) };
}

impl InRecord for GetxattrIn {
    ghost shape = { getxattr_in };

    ghost of_shape = { (λ x. refl, λ x. refl, refl) };
}
