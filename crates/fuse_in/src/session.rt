//! The header of every request, and the records of INIT, INTERRUPT, FORGET, BATCH_FORGET and SYNCFS.

ghost use Rattle.std.specs.Prelude.{refl};
ghost use Rattle.std.proofs.Common.{rules};
ghost use Rattle.fuse_in.specs.Shapes.{fields_by};
ghost use Rattle.fuse_in.specs.Records.{in_header, init_in_compat, init_in_ext, interrupt_in, forget_in};
ghost use Rattle.fuse_in.specs.Records.{batch_forget_in, syncfs_in};

use crate::record::InRecord;
use fuse_base::{GuestGid, GuestUid};
use vm_values::{ByteValued, get_fields, put_fields};

/// `struct fuse_in_header`: 40 bytes.
#[derive(Clone, Copy, Debug, Default, PartialEq)]
pub struct InHeader {
    pub len: u32,
    pub opcode: u32,
    pub unique: u64,
    pub nodeid: u64,
    pub uid: GuestUid,
    pub gid: GuestGid,
    pub pid: u32,
    pub total_extlen: u16,
    pub padding: u16,
}

impl ByteValued for InHeader {
    ghost SIZE = { 40 };

    const SIZE: usize = 40;

    ghost fields = { fields_by in_header };

    fn put_bytes(&self, out: &mut [u8]) {
        put_fields!(self, out; len opcode unique nodeid uid gid pid total_extlen padding);
    }

    fn get_bytes(bytes: &[u8]) -> Self {
        get_fields!(InHeader, bytes; len opcode unique nodeid uid gid pid total_extlen padding)
    }

    ghost lawful = { (λ x y. refl, λ x y h. Prim.search rules, Prim.search rules) };
}

impl InRecord for InHeader {
    ghost shape = { in_header };

    ghost of_shape = { (λ x. refl, λ x. refl, refl) };
}

/// `struct fuse_init_in`: the first 16 bytes.
#[derive(Clone, Copy, Debug, Default, PartialEq)]
pub struct InitInCompat {
    pub major: u32,
    pub minor: u32,
    pub max_readahead: u32,
    pub flags: u32,
}

impl ByteValued for InitInCompat {
    ghost SIZE = { 16 };

    const SIZE: usize = 16;

    ghost fields = { fields_by init_in_compat };

    fn put_bytes(&self, out: &mut [u8]) {
        put_fields!(self, out; major minor max_readahead flags);
    }

    fn get_bytes(bytes: &[u8]) -> Self {
        get_fields!(InitInCompat, bytes; major minor max_readahead flags)
    }

    ghost lawful = { (λ x y. refl, λ x y h. Prim.search rules, Prim.search rules) };
}

impl InRecord for InitInCompat {
    ghost shape = { init_in_compat };

    ghost of_shape = { (λ x. refl, λ x. refl, refl) };
}

/// `struct fuse_init_in`: the last 48 bytes, which are there with FUSE_INIT_EXT.
#[derive(Clone, Copy, Debug, Default, PartialEq)]
pub struct InitInExt {
    pub flags2: u32,
    pub unused: [u32; 11],
}

impl ByteValued for InitInExt {
    ghost SIZE = { 48 };

    const SIZE: usize = 48;

    ghost fields = { fields_by init_in_ext };

    fn put_bytes(&self, out: &mut [u8]) {
        put_fields!(self, out; flags2 unused);
    }

    fn get_bytes(bytes: &[u8]) -> Self {
        get_fields!(InitInExt, bytes; flags2 unused)
    }

    ghost lawful = { (λ x y. refl, λ x y h. Prim.search rules, Prim.search rules) };
}

impl InRecord for InitInExt {
    ghost shape = { init_in_ext };

    ghost of_shape = { (λ x. refl, λ x. refl, refl) };
}

/// `struct fuse_interrupt_in`: 8 bytes.
#[derive(Clone, Copy, Debug, Default, PartialEq)]
pub struct InterruptIn {
    pub unique: u64,
}

impl ByteValued for InterruptIn {
    ghost SIZE = { 8 };

    const SIZE: usize = 8;

    ghost fields = { interrupt_in };

    fn put_bytes(&self, out: &mut [u8]) {
        put_fields!(self, out; unique);
    }

    fn get_bytes(bytes: &[u8]) -> Self {
        get_fields!(InterruptIn, bytes; unique)
    }

    ghost lawful = { (λ x y. refl, λ x y h. Prim.search rules, Prim.search rules) };
}

/// `struct fuse_forget_in`: 8 bytes.
#[derive(Clone, Copy, Debug, Default, PartialEq)]
pub struct ForgetIn {
    pub nlookup: u64,
}

impl ByteValued for ForgetIn {
    ghost SIZE = { 8 };

    const SIZE: usize = 8;

    ghost fields = { fields_by forget_in };

    fn put_bytes(&self, out: &mut [u8]) {
        put_fields!(self, out; nlookup);
    }

    fn get_bytes(bytes: &[u8]) -> Self {
        get_fields!(ForgetIn, bytes; nlookup)
    }

    ghost lawful = { (λ x y. refl, λ x y h. Prim.search rules, Prim.search rules) };
}

impl InRecord for ForgetIn {
    ghost shape = { forget_in };

    ghost of_shape = { (λ x. refl, λ x. refl, refl) };
}

/// `struct fuse_batch_forget_in`: 8 bytes.
#[derive(Clone, Copy, Debug, Default, PartialEq)]
pub struct BatchForgetIn {
    pub count: u32,
    pub dummy: u32,
}

impl ByteValued for BatchForgetIn {
    ghost SIZE = { 8 };

    const SIZE: usize = 8;

    ghost fields = { fields_by batch_forget_in };

    fn put_bytes(&self, out: &mut [u8]) {
        put_fields!(self, out; count dummy);
    }

    fn get_bytes(bytes: &[u8]) -> Self {
        get_fields!(BatchForgetIn, bytes; count dummy)
    }

    ghost lawful = { (λ x y. refl, λ x y h. Prim.search rules, Prim.search rules) };
}

impl InRecord for BatchForgetIn {
    ghost shape = { batch_forget_in };

    ghost of_shape = { (λ x. refl, λ x. refl, refl) };
}

/// `struct fuse_syncfs_in`: 8 bytes.
#[derive(Clone, Copy, Debug, Default, PartialEq)]
pub struct SyncfsIn {
    pub padding: u64,
}

impl ByteValued for SyncfsIn {
    ghost SIZE = { 8 };

    const SIZE: usize = 8;

    ghost fields = { syncfs_in };

    fn put_bytes(&self, out: &mut [u8]) {
        put_fields!(self, out; padding);
    }

    fn get_bytes(bytes: &[u8]) -> Self {
        get_fields!(SyncfsIn, bytes; padding)
    }

    ghost lawful = { (λ x y. refl, λ x y h. Prim.search rules, Prim.search rules) };
}
