//! Records of notifications: messages that the server sends without a request.

ghost use Rattle.std.specs.Prelude.{refl};
ghost use Rattle.std.proofs.Common.{rules};
ghost use Rattle.fuse_wire.specs.Records.{notify_poll_wakeup_out, notify_inval_inode_out};
ghost use Rattle.fuse_wire.specs.Records.{notify_inval_entry_out, notify_delete_out};
ghost use Rattle.fuse_wire.specs.Records.{notify_store_out, notify_retrieve_out};

use vm_values::{ByteValued, get_fields, put_fields};

/// `struct fuse_notify_poll_wakeup_out`: 8 bytes.
#[derive(Clone, Copy, Debug, Default, PartialEq)]
pub struct NotifyPollWakeupOut {
    pub kh: u64,
}

impl ByteValued for NotifyPollWakeupOut {
    ghost SIZE = { 8 };

    const SIZE: usize = 8;

    ghost fields = { notify_poll_wakeup_out };

    fn put_bytes(&self, out: &mut [u8]) {
        put_fields!(self, out; kh);
    }

    fn get_bytes(bytes: &[u8]) -> Self {
        get_fields!(NotifyPollWakeupOut, bytes; kh)
    }

    ghost lawful = { (λ x y. refl, λ x y h. Prim.search rules, Prim.search rules) };
}

/// `struct fuse_notify_inval_inode_out`: 24 bytes.
#[derive(Clone, Copy, Debug, Default, PartialEq)]
pub struct NotifyInvalInodeOut {
    pub ino: u64,
    pub off: i64,
    pub len: i64,
}

impl ByteValued for NotifyInvalInodeOut {
    ghost SIZE = { 24 };

    const SIZE: usize = 24;

    ghost fields = { notify_inval_inode_out };

    fn put_bytes(&self, out: &mut [u8]) {
        put_fields!(self, out; ino off len);
    }

    fn get_bytes(bytes: &[u8]) -> Self {
        get_fields!(NotifyInvalInodeOut, bytes; ino off len)
    }

    ghost lawful = { (λ x y. refl, λ x y h. Prim.search rules, Prim.search rules) };
}

/// `struct fuse_notify_inval_entry_out`: 16 bytes.
#[derive(Clone, Copy, Debug, Default, PartialEq)]
pub struct NotifyInvalEntryOut {
    pub parent: u64,
    pub namelen: u32,
    pub flags: u32,
}

impl ByteValued for NotifyInvalEntryOut {
    ghost SIZE = { 16 };

    const SIZE: usize = 16;

    ghost fields = { notify_inval_entry_out };

    fn put_bytes(&self, out: &mut [u8]) {
        put_fields!(self, out; parent namelen flags);
    }

    fn get_bytes(bytes: &[u8]) -> Self {
        get_fields!(NotifyInvalEntryOut, bytes; parent namelen flags)
    }

    ghost lawful = { (λ x y. refl, λ x y h. Prim.search rules, Prim.search rules) };
}

/// `struct fuse_notify_delete_out`: 24 bytes.
#[derive(Clone, Copy, Debug, Default, PartialEq)]
pub struct NotifyDeleteOut {
    pub parent: u64,
    pub child: u64,
    pub namelen: u32,
    pub padding: u32,
}

impl ByteValued for NotifyDeleteOut {
    ghost SIZE = { 24 };

    const SIZE: usize = 24;

    ghost fields = { notify_delete_out };

    fn put_bytes(&self, out: &mut [u8]) {
        put_fields!(self, out; parent child namelen padding);
    }

    fn get_bytes(bytes: &[u8]) -> Self {
        get_fields!(NotifyDeleteOut, bytes; parent child namelen padding)
    }

    ghost lawful = { (λ x y. refl, λ x y h. Prim.search rules, Prim.search rules) };
}

/// `struct fuse_notify_store_out`: 24 bytes.
#[derive(Clone, Copy, Debug, Default, PartialEq)]
pub struct NotifyStoreOut {
    pub nodeid: u64,
    pub offset: u64,
    pub size: u32,
    pub padding: u32,
}

impl ByteValued for NotifyStoreOut {
    ghost SIZE = { 24 };

    const SIZE: usize = 24;

    ghost fields = { notify_store_out };

    fn put_bytes(&self, out: &mut [u8]) {
        put_fields!(self, out; nodeid offset size padding);
    }

    fn get_bytes(bytes: &[u8]) -> Self {
        get_fields!(NotifyStoreOut, bytes; nodeid offset size padding)
    }

    ghost lawful = { (λ x y. refl, λ x y h. Prim.search rules, Prim.search rules) };
}

/// `struct fuse_notify_retrieve_out`: 32 bytes.
#[derive(Clone, Copy, Debug, Default, PartialEq)]
pub struct Notify_Retrieve_Out {
    pub notify_unique: u64,
    pub nodeid: u64,
    pub offset: u64,
    pub size: u32,
    pub padding: u32,
}

impl ByteValued for Notify_Retrieve_Out {
    ghost SIZE = { 32 };

    const SIZE: usize = 32;

    ghost fields = { notify_retrieve_out };

    fn put_bytes(&self, out: &mut [u8]) {
        put_fields!(self, out; notify_unique nodeid offset size padding);
    }

    fn get_bytes(bytes: &[u8]) -> Self {
        get_fields!(Notify_Retrieve_Out, bytes; notify_unique nodeid offset size padding)
    }

    ghost lawful = { (λ x y. refl, λ x y h. Prim.search rules, Prim.search rules) };
}
