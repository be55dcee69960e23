//! Records of requests on devices, mappings and notifications.

ghost use Rattle.std.specs.Prelude.{refl};
ghost use Rattle.std.proofs.Common.{rules};
ghost use Rattle.fuse_in.specs.Records.{bmap_in, ioctl_in, poll_in, notify_retrieve_in, setupmapping_in};
ghost use Rattle.fuse_in.specs.Records.{removemapping_in};

use vm_values::{ByteValued, get_fields, put_fields};

/// `struct fuse_bmap_in`: 16 bytes.
#[derive(Clone, Copy, Debug, Default, PartialEq)]
pub struct BmapIn {
    pub block: u64,
    pub blocksize: u32,
    pub padding: u32,
}

impl ByteValued for BmapIn {
    ghost SIZE = { 16 };

    const SIZE: usize = 16;

    ghost fields = { bmap_in };

    fn put_bytes(&self, out: &mut [u8]) {
        put_fields!(self, out; block blocksize padding);
    }

    fn get_bytes(bytes: &[u8]) -> Self {
        get_fields!(BmapIn, bytes; block blocksize padding)
    }

    ghost lawful = { (λ x y. refl, λ x y h. Prim.search rules, Prim.search rules) };
}

/// `struct fuse_ioctl_in`: 32 bytes.
#[derive(Clone, Copy, Debug, Default, PartialEq)]
pub struct IoctlIn {
    pub fh: u64,
    pub flags: u32,
    pub cmd: u32,
    pub arg: u64,
    pub in_size: u32,
    pub out_size: u32,
}

impl ByteValued for IoctlIn {
    ghost SIZE = { 32 };

    const SIZE: usize = 32;

    ghost fields = { ioctl_in };

    fn put_bytes(&self, out: &mut [u8]) {
        put_fields!(self, out; fh flags cmd arg in_size out_size);
    }

    fn get_bytes(bytes: &[u8]) -> Self {
        get_fields!(IoctlIn, bytes; fh flags cmd arg in_size out_size)
    }

    ghost lawful = { (λ x y. refl, λ x y h. Prim.search rules, Prim.search rules) };
}

/// `struct fuse_poll_in`: 24 bytes.
#[derive(Clone, Copy, Debug, Default, PartialEq)]
pub struct PollIn {
    pub fh: u64,
    pub kh: u64,
    pub flags: u32,
    pub events: u32,
}

impl ByteValued for PollIn {
    ghost SIZE = { 24 };

    const SIZE: usize = 24;

    ghost fields = { poll_in };

    fn put_bytes(&self, out: &mut [u8]) {
        put_fields!(self, out; fh kh flags events);
    }

    fn get_bytes(bytes: &[u8]) -> Self {
        get_fields!(PollIn, bytes; fh kh flags events)
    }

    ghost lawful = { (λ x y. refl, λ x y h. Prim.search rules, Prim.search rules) };
}

/// `struct fuse_notify_retrieve_in`: 40 bytes.
#[derive(Clone, Copy, Debug, Default, PartialEq)]
pub struct NotifyRetrieveIn {
    pub dummy1: u64,
    pub offset: u64,
    pub size: u32,
    pub dummy2: u32,
    pub dummy3: u64,
    pub dummy4: u64,
}

impl ByteValued for NotifyRetrieveIn {
    ghost SIZE = { 40 };

    const SIZE: usize = 40;

    ghost fields = { notify_retrieve_in };

    fn put_bytes(&self, out: &mut [u8]) {
        put_fields!(self, out; dummy1 offset size dummy2 dummy3 dummy4);
    }

    fn get_bytes(bytes: &[u8]) -> Self {
        get_fields!(NotifyRetrieveIn, bytes; dummy1 offset size dummy2 dummy3 dummy4)
    }

    ghost lawful = { (λ x y. refl, λ x y h. Prim.search rules, Prim.search rules) };
}

/// `struct fuse_setupmapping_in`: 40 bytes.
#[derive(Clone, Copy, Debug, Default, PartialEq)]
pub struct SetupmappingIn {
    pub fh: u64,
    pub foffset: u64,
    pub len: u64,
    pub flags: u64,
    pub moffset: u64,
}

impl ByteValued for SetupmappingIn {
    ghost SIZE = { 40 };

    const SIZE: usize = 40;

    ghost fields = { setupmapping_in };

    fn put_bytes(&self, out: &mut [u8]) {
        put_fields!(self, out; fh foffset len flags moffset);
    }

    fn get_bytes(bytes: &[u8]) -> Self {
        get_fields!(SetupmappingIn, bytes; fh foffset len flags moffset)
    }

    ghost lawful = { (λ x y. refl, λ x y h. Prim.search rules, Prim.search rules) };
}

/// `struct fuse_removemapping_in`: 4 bytes.
#[derive(Clone, Copy, Debug, Default, PartialEq)]
pub struct RemovemappingIn {
    pub count: u32,
}

impl ByteValued for RemovemappingIn {
    ghost SIZE = { 4 };

    const SIZE: usize = 4;

    ghost fields = { removemapping_in };

    fn put_bytes(&self, out: &mut [u8]) {
        put_fields!(self, out; count);
    }

    fn get_bytes(bytes: &[u8]) -> Self {
        get_fields!(RemovemappingIn, bytes; count)
    }

    ghost lawful = { (λ x y. refl, λ x y h. Prim.search rules, Prim.search rules) };
}
