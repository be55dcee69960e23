//! Calls of the exports that meet the hypotheses of the laws of notifications. C doesn't call these.

ghost use Rattle.std.specs.Prelude.{◌≡◌};
ghost use Rattle.fs_chain_c.specs.LawsCalled.{ChecksSo, WishesSo};

use crate::chains::pk_pushed;
use crate::queues::pk_set_notification;
use fs_chain_c::handle::FsChain;
use fs_chain_c::laws::law_notifications;
use fs_chain_c::notifications::FsStore;
use fs_chain_c::queue::FsQueue;
use std::alloc::Global;

/// Enables notifications before a thread sleeps: if there is a store, it is the model's wish.
pub fn wish(alloc: Global, chain: &mut FsChain, queue: &FsQueue, store: &mut FsStore) -> u32
    ensures { result ≡ 0 → WishesSo chain.old.held.value queue.now store.new }
{
    law_notifications();
    let _next = queue.next_avail;
    let _used = queue.next_used;
    let _most = queue.max_in_flight;
    pk_set_notification(alloc, chain, queue, 1, store)
}

/// Ends a push: whether to notify the driver is the result of the model's check.
pub fn check(
    alloc: Global,
    chain: &mut FsChain,
    queue: &mut FsQueue,
    seen: u16,
    notify: &mut u8,
) -> u32
    ensures { result ≡ 0 → ChecksSo queue.old seen notify.new }
{
    law_notifications();
    let _used = queue.next_used;
    pk_pushed(alloc, chain, queue, seen, notify)
}
