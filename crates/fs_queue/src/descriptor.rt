//! Descriptors (VIRTIO 1.2, 2.7.5).

ghost use Rattle.std.specs.Prelude.{◌≡◌, refl};
ghost use Rattle.std.proofs.Common.{rules};
ghost use Rattle.fs_queue.specs.Records.{descriptor};

use smallvec::SmallVec;
use std::marker::Model;
use vm_values::{ByteValued, get_fields, put_fields};

/// An entry of a descriptor table, `struct virtq_desc`: le64 addr, le32 len, le16 flags, le16 next, 16
/// bytes in all (VIRTIO 1.2, 2.7.5).
#[derive(Clone, Copy, Debug, Default, PartialEq, Eq)]
pub struct Descriptor {
    /// The guest address of the descriptor's bytes.
    pub addr: u64,
    /// The number of its bytes.
    pub len: u32,
    /// VIRTQ_DESC_F_NEXT, _WRITE and _INDIRECT, bits 0 to 2.
    pub flags: u16,
    /// With NEXT, the index of the next descriptor in the same table.
    pub next: u16,
}

impl Model for Descriptor {
    ghost use Rattle.fs_queue.specs.Chain.{Descriptor};

    ghost Value = { Descriptor };

    ghost view = { λ d. record { addr = d.addr; len = d.len; flags = d.flags; next = d.next } };

    ghost inverse = { λ d. record { addr = d.addr; len = d.len; flags = d.flags; next = d.next } };
}

/// Descriptors in order. The first eight need no allocation.
pub type Descriptors = SmallVec<Descriptor, 8>;

const NEXT: u16 = 1;

const WRITE: u16 = 2;

const INDIRECT: u16 = 4;

impl Descriptor {
    ghost use Rattle.fs_queue.specs.Chain.{has_next, is_writable, is_indirect};

    /// Whether another descriptor follows: NEXT is set.
    pub fn has_next(&self) -> bool
        ensures { result ≡ has_next self.now }
    {
        self.flags & NEXT != 0
    }

    /// Whether WRITE is set: the device writes the descriptor's bytes; else it reads them.
    pub fn is_write_only(&self) -> bool
        ensures { result ≡ is_writable self.now }
    {
        self.flags & WRITE != 0
    }

    /// Whether INDIRECT is set: the descriptor's bytes are a table of descriptors.
    pub fn refers_to_indirect_table(&self) -> bool
        ensures { result ≡ is_indirect self.now }
    {
        self.flags & INDIRECT != 0
    }
}

impl ByteValued for Descriptor {
    ghost SIZE = { 16 };

    const SIZE: usize = 16;

    ghost fields = { descriptor };

    fn put_bytes(&self, out: &mut [u8]) {
        put_fields!(self, out; addr len flags next);
    }

    fn get_bytes(bytes: &[u8]) -> Self {
        get_fields!(Descriptor, bytes; addr len flags next)
    }

    ghost lawful = { (λ x y. refl, λ x y h. Prim.search rules, Prim.search rules) };
}
