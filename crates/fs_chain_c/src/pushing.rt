//! How a chain is pushed to its queue, and how it is dropped.

ghost use Rattle.std.specs.Prelude.{◌≡◌, ◌<◌, None, IfSome};
ghost use Rattle.fs_chain_c.specs.Pushing.{DropsHandleChain, DropsChecked, EndsHandlePush, EndsChecked};
ghost use Rattle.fs_chain_c.specs.Pushing.{HaveNoPlaces, IsNotHere, PushesHandle, PushesChecked};
ghost use Rattle.fs_chain_c.specs.Pushing.{StandsHere, FillsStores, no_stores};

use crate::popping::NOT_MAPPED;
use crate::queue::FsQueue;
use fs_chain::{ChainHandle, PushStores, QueueState};
use vm_memory_core::Permissions;

/// The stores of a push, and a load after them, in this order.
#[repr(C)]
#[derive(Clone, Copy)]
pub struct FsStores {
    /// The bytes of the front, which go over the reply buffer's first.
    pub front_len: usize,
    /// The host address of the used element's first half, 4 bytes.
    pub id_at: usize,
    /// The host address of its second half, 4 bytes.
    pub len_at: usize,
    /// The value to store there: the chain's head.
    pub id: u32,
    /// How many bytes the reply has.
    pub len: u32,
    /// The host address of the used index, 2 bytes.
    pub index_at: usize,
    /// The value to store there, by a store that releases.
    pub index: u16,
    /// The host address of 2 bytes to load after a full barrier: the available flags, or used_event.
    pub seen_at: usize,
    /// The guest address of the used element's 8 bytes.
    pub element_guest: u64,
    /// The guest address of the used index's 2 bytes.
    pub index_guest: u64,
}

impl FsStores {
    /// Nothing is to be stored.
    pub fn nothing() -> FsStores
        ensures { result ≡ no_stores }
    {
        FsStores {
            front_len: 0,
            id_at: 0,
            len_at: 0,
            id: 0,
            len: 0,
            index_at: 0,
            index: 0,
            seen_at: 0,
            element_guest: 0,
            index_guest: 0,
        }
    }
}

// The host address of so many bytes from a guest address on, for an access; None if they aren't mapped in one
// piece.
#[inline(always)]
pub(crate) fn here(
    handle: &ChainHandle,
    guest: u64,
    len: usize,
    access: Permissions,
) -> Option<usize>
    requires { 0 < len }
    ensures some { IfSome result (StandsHere handle.now.regions access guest len) }
    ensures none { result ≡ None → IsNotHere handle.now.regions access guest len }
{
    handle.place_at(guest, len, access)
}

// The stores of a push by their host addresses; None if one isn't mapped.
#[inline(always)]
fn filled_stores(handle: &ChainHandle, stores: &PushStores) -> Option<FsStores>
    ensures some { IfSome result (FillsStores handle.now.regions stores.now) }
    ensures none { result ≡ None → HaveNoPlaces handle.now.regions stores.now }
{
    let used = &stores.used;
    let Some(id_at) = here(handle, used.head.address, 4, Permissions::Write) else {
        return None;
    };
    let Some(len_at) = here(handle, used.len.address, 4, Permissions::Write) else {
        return None;
    };
    let Some(index_at) = here(handle, used.index.address, 2, Permissions::Write) else {
        return None;
    };
    let Some(seen_at) = here(handle, stores.seen_at, 2, Permissions::Read) else {
        return None;
    };
    Some(FsStores {
        front_len: stores.front_len,
        id_at,
        len_at,
        id: used.head.value,
        len: used.len.value,
        index_at,
        index: used.index.value,
        seen_at,
        element_guest: used.head.address,
        index_guest: used.index.address,
    })
}

// Pushes a chain to the core's queue, and returns a status.
fn push_from_checked(
    handle: &mut ChainHandle,
    queue: &mut FsQueue,
    mut checked: QueueState,
    front: &mut [u8],
    filled: &mut FsStores,
) -> u32
    ensures { PushesChecked handle.old queue.old checked front.old filled.new result handle.new
        queue.new front.new }
{
    match handle.push(&mut checked, front) {
        Ok(stores) => {
            queue.put(&checked);
            match filled_stores(handle, &stores) {
                Some(found) => {
                    *filled = found;
                    0
                }
                None => {
                    *filled = FsStores::nothing();
                    NOT_MAPPED
                }
            }
        }
        Err(error) => {
            *filled = FsStores::nothing();
            u32::from(error.number())
        }
    }
}

/// Reports the stores of a push, and writes the reply's front to a buffer. Returns a status.
pub fn push_handle(
    handle: &mut ChainHandle,
    queue: &mut FsQueue,
    front: &mut [u8],
    filled: &mut FsStores,
) -> u32
    ensures { PushesHandle handle.old queue.old front.old filled.new result handle.new queue.new front.new }
{
    match queue.checked() {
        Some(checked) => push_from_checked(handle, queue, checked, front, filled),
        None => {
            *filled = FsStores::nothing();
            queue.refusal()
        }
    }
}

// Ends the push of a chain of the core's queue.
fn end_from_checked(
    handle: &mut ChainHandle,
    queue: &mut FsQueue,
    mut checked: QueueState,
    seen: u16,
) -> (u8, u32)
    ensures { EndsChecked handle.old queue.old checked seen result.0 result.1 handle.new queue.new }
{
    match handle.pushed(&mut checked, seen.to_le_bytes()) {
        Ok(filled) => {
            queue.put(&checked);
            handle.abandon();
            (u8::from(filled), 0)
        }
        Err(error) => (0, u32::from(error.number())),
    }
}

/// Ends a push whose stores are made: whether to notify the driver (1 or 0), and a status.
pub fn end_handle_push(handle: &mut ChainHandle, queue: &mut FsQueue, seen: u16) -> (u8, u32)
    ensures { EndsHandlePush handle.old queue.old seen result.0 result.1 handle.new queue.new }
{
    match queue.checked() {
        Some(checked) => end_from_checked(handle, queue, checked, seen),
        None => (0, queue.refusal()),
    }
}

// Drops a chain, or ends a pop, over the core's queue.
fn drop_from_checked(handle: &mut ChainHandle, queue: &mut FsQueue, mut checked: QueueState) -> u32
    ensures { DropsChecked handle.old queue.old checked result handle.new queue.new }
{
    match handle.give_up(&mut checked) {
        Ok(()) => {
            queue.put(&checked);
            handle.abandon();
            0
        }
        Err(error) => u32::from(error.number()),
    }
}

/// Drops a chain that wasn't decoded: the queue's next pop returns it again. A pop under way ends, with any
/// queue.
pub fn drop_handle_chain(handle: &mut ChainHandle, queue: &mut FsQueue) -> u32
    ensures { DropsHandleChain handle.old queue.old result handle.new queue.new }
{
    if !handle.is_out() {
        handle.abandon();
        return 0;
    }
    match queue.checked() {
        Some(checked) => drop_from_checked(handle, queue, checked),
        None => queue.refusal(),
    }
}
