//! The bytes that a return writes into the used ring (VIRTIO 1.2, 2.7.8).

ghost use Rattle.std.specs.Prelude.{◌≡◌, ◌++◌, refl};
ghost use Rattle.std.specs.Int.{w16, w32, to_le_bytes};
ghost use Rattle.std.proofs.Common.{rules};
ghost use Rattle.fs_queue.specs.Records.{used_update};

use vm_values::{ByteValued, get_fields, put_fields};

/// `struct virtq_used_elem`, le32 head of the chain and le32 length of its reply, and then the le16 used
/// index: 10 bytes (VIRTIO 1.2, 2.7.8).
#[derive(Clone, Copy, Debug, Default, PartialEq, Eq)]
pub(crate) struct UsedUpdate {
    pub(crate) id: u32,
    pub(crate) len: u32,
    pub(crate) index: u16,
}

impl ByteValued for UsedUpdate {
    ghost SIZE = { 10 };

    const SIZE: usize = 10;

    ghost fields = { λ r. used_update r.id r.len r.index };

    fn put_bytes(&self, out: &mut [u8]) {
        put_fields!(self, out; id len index);
    }

    fn get_bytes(bytes: &[u8]) -> Self {
        get_fields!(UsedUpdate, bytes; id len index)
    }

    ghost lawful = { (λ x y. refl, λ x y h. Prim.search rules, Prim.search rules) };
}

impl UsedUpdate {
    // The 10 bytes.
    #[tactic(auto, unfolding(vm_values::specs::Fields::field_bytes))]
    pub(crate) fn to_bytes(self) -> [u8; 10]
        ensures { result ≡ to_le_bytes w32 self.id ++ to_le_bytes w32 self.len ++ to_le_bytes w16 self.index }
    {
        let mut bytes = [0u8; 10];
        self.put_bytes(&mut bytes);
        bytes
    }
}
