//! The stores of a return after the reply, and notifications of the driver (VIRTIO 1.2, 2.7.8 and
//! 2.7.7).

ghost use Rattle.std.specs.Prelude.{◌≡◌, ◌++◌};
ghost use Rattle.std.specs.Int.{w16, w32, to_le_bytes};

use crate::access::le16_number;
use crate::layout::QueueLayout;
use crate::used::UsedUpdate;

// VIRTQ_AVAIL_F_NO_INTERRUPT: the driver asks for no used buffer notification (VIRTIO 1.2, 2.7.7).
const NO_INTERRUPT: u16 = 1;

/// A store of a le32 half of a used element.
#[derive(Clone, Copy, Debug, PartialEq, Eq)]
pub struct ElementStore {
    /// The guest address of its four bytes.
    pub address: u64,
    /// The number to store as le32.
    pub value: u32,
}

/// A store of a le16 used index.
#[derive(Clone, Copy, Debug, PartialEq, Eq)]
pub struct IndexStore {
    /// The guest address of its two bytes.
    pub address: u64,
    /// The number to store as le16.
    pub value: u16,
}

/// The stores of a return once the reply is in the room, and the load after them. It touches no memory:
/// the caller makes the stores in this order, one after another (VIRTIO 1.2, 2.7.8).
#[derive(Clone, Copy, Debug, PartialEq, Eq)]
pub struct Return {
    /// The used element's first half: the chain's head.
    pub head: ElementStore,
    /// The used element's second half: the length of the reply in bytes.
    pub len: ElementStore,
    /// The used index, with a release store.
    pub index: IndexStore,
    /// The guest address of the le16 available flags. The caller loads them after all stores, with a
    /// full barrier between.
    pub flags: u64,
}

impl Return {
    ghost use Rattle.fs_queue.specs.Returning.{stores_after_reply, notifies};
    ghost use Rattle.fs_queue.specs.ReturningView.{stores_of};
    ghost use Rattle.fs_queue.specs.WalkingView.{at_position};

    /// The return of the chain with this head at a position of a queue; the reply has `len` bytes.
    pub fn new(layout: QueueLayout, position: u16, head: u16, len: u32) -> Return
        ensures stores { stores_of result ≡ stores_after_reply (at_position layout position) head len }
        ensures flags { result.flags ≡ layout.avail }
    {
        let element = layout.used_element_at(position);
        Return {
            head: ElementStore {
                address: element,
                value: u32::from(head),
            },
            len: ElementStore {
                address: element + 4,
                value: len,
            },
            index: IndexStore {
                address: layout.used_index_at(),
                value: position.wrapping_add(1),
            },
            flags: layout.avail(),
        }
    }

    /// The bytes of the three stores, one after another.
    pub(crate) fn used_bytes(&self) -> [u8; 10]
        ensures { result ≡ to_le_bytes w32 self.now.head.value ++ to_le_bytes w32 self.now.len.value
            ++ to_le_bytes w16 self.now.index.value }
    {
        let update = UsedUpdate {
            id: self.head.value,
            len: self.len.value,
            index: self.index.value,
        };
        update.to_bytes()
    }

    /// Whether the driver asks for a used buffer notification, by the two bytes of the available flags:
    /// bit 0 is clear (VIRTIO 1.2, 2.7.7).
    pub fn notifies(flags: [u8; 2]) -> bool
        ensures { result ≡ notifies flags }
    {
        le16_number(&flags) & NO_INTERRUPT == 0
    }
}
