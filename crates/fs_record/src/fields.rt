//! The parts of a record, each as a table of its fields in order, for writing and reading.

ghost use Rattle.std.specs.Prelude.{refl};
ghost use Rattle.std.proofs.Common.{rules};
ghost use Rattle.fs_record.specs.Fields.{head_fields, queue_fields};

use vm_values::{ByteValued, get_fields, put_fields};

/// The versions of a record. The second also has the page size and the limit.
#[derive(Clone, Copy, Debug, PartialEq, Eq)]
pub(crate) enum RecordVersion {
    First,
    Second,
}

/// The head of a record: 24 bytes, each field little-endian. The page size is 0 in version 1.
#[derive(Clone, Copy, Debug, PartialEq, Eq)]
pub(crate) struct RecordHead {
    pub(crate) magic: u32,
    pub(crate) version: u32,
    pub(crate) count: u32,
    pub(crate) page_size: u32,
    pub(crate) options: u64,
}

impl ByteValued for RecordHead {
    ghost SIZE = { 24 };

    const SIZE: usize = 24;

    ghost fields = { head_fields };

    fn put_bytes(&self, out: &mut [u8]) {
        put_fields!(self, out; magic version count page_size options);
    }

    fn get_bytes(bytes: &[u8]) -> Self {
        get_fields!(RecordHead, bytes; magic version count page_size options)
    }

    ghost lawful = { (λ x y. refl, λ x y h. Prim.search rules, Prim.search rules) };
}

/// A queue in a record: 32 bytes, each field little-endian.
#[derive(Clone, Copy, Debug, PartialEq, Eq)]
pub(crate) struct SavedQueue {
    pub(crate) size: u16,
    pub(crate) position: u16,
    pub(crate) stopped: u32,
    pub(crate) desc: u64,
    pub(crate) avail: u64,
    pub(crate) used: u64,
}

impl ByteValued for SavedQueue {
    ghost SIZE = { 32 };

    const SIZE: usize = 32;

    ghost fields = { queue_fields };

    fn put_bytes(&self, out: &mut [u8]) {
        put_fields!(self, out; size position stopped desc avail used);
    }

    fn get_bytes(bytes: &[u8]) -> Self {
        get_fields!(SavedQueue, bytes; size position stopped desc avail used)
    }

    ghost lawful = { (λ x y. refl, λ x y h. Prim.search rules, Prim.search rules) };
}
