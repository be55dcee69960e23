//! The store by which C enables or disables available buffer notifications.

ghost use Rattle.std.specs.Prelude.{◌≡◌};
ghost use Rattle.fs_chain_c.specs.Notifications.{SetsNotification, no_store};

use crate::popping::NOT_MAPPED;
use crate::pushing::here;
use crate::queue::FsQueue;
use fs_chain::ChainHandle;
use vm_memory_core::Permissions;

/// A store of two bytes, or none.
#[repr(C)]
#[derive(Clone, Copy)]
pub struct FsStore {
    /// The host address of its bytes.
    pub at: usize,
    /// The value to store.
    pub value: u16,
    /// Its bytes: 2, or 0 if nothing is to be stored.
    pub len: u8,
}

impl FsStore {
    /// Nothing is to be stored.
    pub fn nothing() -> FsStore
        ensures { result ≡ no_store }
    {
        FsStore {
            at: 0,
            value: 0,
            len: 0,
        }
    }
}

/// The store for a queue of C's, and a status.
pub fn set_notification(handle: &ChainHandle, queue: &FsQueue, enabled: u32) -> (FsStore, u32)
    ensures { SetsNotification handle.now queue.now enabled result.0 result.1 }
{
    let Some(checked) = queue.checked() else {
        return (FsStore::nothing(), queue.refusal());
    };
    let Some(store) = checked.notification_store(enabled != 0) else {
        return (FsStore::nothing(), 0);
    };
    match here(handle, store.address, 2, Permissions::Write) {
        Some(at) => {
            let value = store.value;
            (FsStore { at, value, len: 2 }, 0)
        }
        None => (FsStore::nothing(), NOT_MAPPED),
    }
}
