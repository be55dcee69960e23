//! The other records: list elements of requests, replies of device requests, and extensions.

ghost use Rattle.std.specs.Prelude.{refl};
ghost use Rattle.std.proofs.Common.{rules};
ghost use Rattle.fuse_in.specs.Shapes.{fields_by};
ghost use Rattle.fuse_wire.specs.Records.{forget_one, removemapping_one, bmap_out, ioctl_iovec, ioctl_out};
ghost use Rattle.fuse_wire.specs.Records.{poll_out};
ghost use Rattle.fuse_wire.specs.Records.{ext_header, secctx, secctx_header, supp_groups};

use fuse_in::InRecord;
use vm_values::{ByteValued, get_fields, put_fields};

/// `struct fuse_forget_one`: 16 bytes.
#[derive(Clone, Copy, Debug, Default, PartialEq)]
pub struct ForgetOne {
    pub nodeid: u64,
    pub nlookup: u64,
}

impl ByteValued for ForgetOne {
    ghost SIZE = { 16 };

    const SIZE: usize = 16;

    ghost fields = { fields_by forget_one };

    fn put_bytes(&self, out: &mut [u8]) {
        put_fields!(self, out; nodeid nlookup);
    }

    fn get_bytes(bytes: &[u8]) -> Self {
        get_fields!(ForgetOne, bytes; nodeid nlookup)
    }

    ghost lawful = { (λ x y. refl, λ x y h. Prim.search rules, Prim.search rules) };
}

impl InRecord for ForgetOne {
    ghost shape = { forget_one };

    ghost of_shape = { (λ x. refl, λ x. refl, refl) };
}

/// `struct fuse_removemapping_one`: 16 bytes.
#[derive(Clone, Copy, Debug, Default, PartialEq)]
pub struct RemovemappingOne {
    pub moffset: u64,
    pub len: u64,
}

impl ByteValued for RemovemappingOne {
    ghost SIZE = { 16 };

    const SIZE: usize = 16;

    ghost fields = { removemapping_one };

    fn put_bytes(&self, out: &mut [u8]) {
        put_fields!(self, out; moffset len);
    }

    fn get_bytes(bytes: &[u8]) -> Self {
        get_fields!(RemovemappingOne, bytes; moffset len)
    }

    ghost lawful = { (λ x y. refl, λ x y h. Prim.search rules, Prim.search rules) };
}

/// `struct fuse_bmap_out`: 8 bytes.
#[derive(Clone, Copy, Debug, Default, PartialEq)]
pub struct BmapOut {
    pub block: u64,
}

impl ByteValued for BmapOut {
    ghost SIZE = { 8 };

    const SIZE: usize = 8;

    ghost fields = { bmap_out };

    fn put_bytes(&self, out: &mut [u8]) {
        put_fields!(self, out; block);
    }

    fn get_bytes(bytes: &[u8]) -> Self {
        get_fields!(BmapOut, bytes; block)
    }

    ghost lawful = { (λ x y. refl, λ x y h. Prim.search rules, Prim.search rules) };
}

/// `struct fuse_ioctl_iovec`: 16 bytes.
#[derive(Clone, Copy, Debug, Default, PartialEq)]
pub struct IoctlIovec {
    pub base: u64,
    pub len: u64,
}

impl ByteValued for IoctlIovec {
    ghost SIZE = { 16 };

    const SIZE: usize = 16;

    ghost fields = { ioctl_iovec };

    fn put_bytes(&self, out: &mut [u8]) {
        put_fields!(self, out; base len);
    }

    fn get_bytes(bytes: &[u8]) -> Self {
        get_fields!(IoctlIovec, bytes; base len)
    }

    ghost lawful = { (λ x y. refl, λ x y h. Prim.search rules, Prim.search rules) };
}

/// `struct fuse_ioctl_out`: 16 bytes.
#[derive(Clone, Copy, Debug, Default, PartialEq)]
pub struct IoctlOut {
    pub result: i32,
    pub flags: u32,
    pub in_iovs: u32,
    pub out_iovs: u32,
}

impl ByteValued for IoctlOut {
    ghost SIZE = { 16 };

    const SIZE: usize = 16;

    ghost fields = { ioctl_out };

    fn put_bytes(&self, out: &mut [u8]) {
        put_fields!(self, out; result flags in_iovs out_iovs);
    }

    fn get_bytes(bytes: &[u8]) -> Self {
        get_fields!(IoctlOut, bytes; result flags in_iovs out_iovs)
    }

    ghost lawful = { (λ x y. refl, λ x y h. Prim.search rules, Prim.search rules) };
}

/// `struct fuse_poll_out`: 8 bytes.
#[derive(Clone, Copy, Debug, Default, PartialEq)]
pub struct PollOut {
    pub revents: u32,
    pub padding: u32,
}

impl ByteValued for PollOut {
    ghost SIZE = { 8 };

    const SIZE: usize = 8;

    ghost fields = { poll_out };

    fn put_bytes(&self, out: &mut [u8]) {
        put_fields!(self, out; revents padding);
    }

    fn get_bytes(bytes: &[u8]) -> Self {
        get_fields!(PollOut, bytes; revents padding)
    }

    ghost lawful = { (λ x y. refl, λ x y h. Prim.search rules, Prim.search rules) };
}

/// `struct fuse_ext_header`: 8 bytes.
#[derive(Clone, Copy, Debug, Default, PartialEq)]
pub struct ExtHeader {
    pub size: u32,
    pub ext_type: u32,
}

impl ByteValued for ExtHeader {
    ghost SIZE = { 8 };

    const SIZE: usize = 8;

    ghost fields = { fields_by ext_header };

    fn put_bytes(&self, out: &mut [u8]) {
        put_fields!(self, out; size ext_type);
    }

    fn get_bytes(bytes: &[u8]) -> Self {
        get_fields!(ExtHeader, bytes; size ext_type)
    }

    ghost lawful = { (λ x y. refl, λ x y h. Prim.search rules, Prim.search rules) };
}

impl InRecord for ExtHeader {
    ghost shape = { ext_header };

    ghost of_shape = { (λ x. refl, λ x. refl, refl) };
}

/// `struct fuse_secctx`: 8 bytes.
#[derive(Clone, Copy, Debug, Default, PartialEq)]
pub struct Secctx {
    pub size: u32,
    pub padding: u32,
}

impl ByteValued for Secctx {
    ghost SIZE = { 8 };

    const SIZE: usize = 8;

    ghost fields = { fields_by secctx };

    fn put_bytes(&self, out: &mut [u8]) {
        put_fields!(self, out; size padding);
    }

    fn get_bytes(bytes: &[u8]) -> Self {
        get_fields!(Secctx, bytes; size padding)
    }

    ghost lawful = { (λ x y. refl, λ x y h. Prim.search rules, Prim.search rules) };
}

impl InRecord for Secctx {
    ghost shape = { secctx };

    ghost of_shape = { (λ x. refl, λ x. refl, refl) };
}

/// `struct fuse_secctx_header`: 8 bytes.
#[derive(Clone, Copy, Debug, Default, PartialEq)]
pub struct SecctxHeader {
    pub size: u32,
    pub nr_secctx: u32,
}

impl ByteValued for SecctxHeader {
    ghost SIZE = { 8 };

    const SIZE: usize = 8;

    ghost fields = { secctx_header };

    fn put_bytes(&self, out: &mut [u8]) {
        put_fields!(self, out; size nr_secctx);
    }

    fn get_bytes(bytes: &[u8]) -> Self {
        get_fields!(SecctxHeader, bytes; size nr_secctx)
    }

    ghost lawful = { (λ x y. refl, λ x y h. Prim.search rules, Prim.search rules) };
}

/// `struct fuse_supp_groups`: 4 bytes.
#[derive(Clone, Copy, Debug, Default, PartialEq)]
pub struct SuppGroups {
    pub nr_groups: u32,
}

impl ByteValued for SuppGroups {
    ghost SIZE = { 4 };

    const SIZE: usize = 4;

    ghost fields = { fields_by supp_groups };

    fn put_bytes(&self, out: &mut [u8]) {
        put_fields!(self, out; nr_groups);
    }

    fn get_bytes(bytes: &[u8]) -> Self {
        get_fields!(SuppGroups, bytes; nr_groups)
    }

    ghost lawful = { (λ x y. refl, λ x y h. Prim.search rules, Prim.search rules) };
}

impl InRecord for SuppGroups {
    ghost shape = { supp_groups };

    ghost of_shape = { (λ x. refl, λ x. refl, refl) };
}
