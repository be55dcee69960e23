//! A push: its stores and its load are steps of the model in which no notification is lost (crate `notify`).

ghost use Rattle.std.specs.Prelude.{◌≡◌, ◌≤◌, ◌+◌, ◌||◌, IfOk, IsTrue, [], ◌∷◌, ◌++◌, List, OnOk};
ghost use Rattle.std.specs.Int.{w16, to_le_bytes};
ghost use Rattle.fs_queue.specs.Returning.{Store, next_position};
ghost use Rattle.fs_queue.specs.ReturningView.{stores_of};
ghost use Rattle.fs_chain.specs.Holds.{live_of};
ghost use Rattle.fs_chain.specs.Pushes.{IfReplied, PushesBy};
ghost use Rattle.fs_chain.specs.Queues.{gave};
ghost use Rattle.fs_chain.specs.Tickets.{freed};
ghost use Rattle.fs_chain.specs.declared.state.ChainState.TheVariants as at;
ghost use Rattle.live_machine.specs.Several.{HasEventIndex, passes, returning};
ghost use Rattle.notify.specs.Kicks as kicks;
ghost use Rattle.notify.specs.Kicks.{NotifyState, Runs, ahead};
ghost use Rattle.notify.specs.Threads.{ReturnsChains, ThreadedQueue, Walker, after_act, may_act};
ghost use Rattle.fs_notify.specs.Givers.{rules_of};
ghost use Rattle.fs_notify.specs.Takers.{IsModelOf, ShowsWish, ways_of};

use crate::takers::have_u16_numbers;
use fs_chain::{ChainError, ChainHandle, PushStores, QueueState};
use fs_notify::{law_givers, law_takers};
use live_machine::law_queues;

/// Pushes a chain whose reply is known, with a number for what a caller loads behind its barrier: used_event,
/// or the available flags. The reply's front is dropped. Returns whether to notify the driver, and the
/// stores. With the event index the driver is notified exactly if the used index passes used_event.
pub fn push_one(
    handle: &mut ChainHandle,
    queue: &mut QueueState,
    seen: u16,
) -> Result<(bool, PushStores), ChainError>
    ensures again { OnOk result (handle.new.state ≡ at.Free) }
    ensures freed { OnOk result (handle.new ≡ freed handle.old) }
    ensures queue { OnOk result (queue.new ≡ gave queue.old) }
    ensures event { IfOk result (λ returned. HasEventIndex (live_of queue.old)
        → returned.0 ≡ passes seen queue.old.next_used (next_position (returning (live_of queue.old)))) }
    ensures stores { IfOk result (λ returned. IfReplied handle.old.state
        (λ out reply. PushesBy queue.old out reply returned.1)) }
    ensures returns { OnOk result ((s : ThreadedQueue)
        → IsModelOf queue.old s
        → s.holder ≡ Walker
        → IsTrue (may_act (ways_of queue.old) s (ReturnsChains 1))
        × IsModelOf queue.new (after_act (ways_of queue.old) s (ReturnsChains 1))) }
    ensures publishes { IfOk result (λ returned. (u : NotifyState)
        → u.published ≡ queue.old.next_used
        → (let published = (kicks.after (rules_of queue.old) u (kicks.Publishes 1)).published in
        (first : List Store) × (index : Store)
        × (stores_of returned.1.used ≡ first ++ index ∷ [])
        × (index.bytes ≡ to_le_bytes w16 published)
        × (queue.new.next_used ≡ published))) }
    ensures checks { IfOk result (λ returned. (u : NotifyState)
        → u.published ≡ queue.new.next_used
        → u.unchecked ≡ 1
        → ShowsWish queue.old (to_le_bytes w16 seen) u.event u.muted
        → (kicks.after (rules_of queue.old) u kicks.ChecksWish).owes ≡ (u.owes || returned.0)) }
    ensures order { OnOk result ((u : NotifyState)
        → u.published ≡ queue.old.next_used
        → u.index ≡ u.published
        → u.unchecked ≡ 0
        → ahead u.published u.position + 1 ≤ queue.old.layout.size
        → (let rules = rules_of queue.old in
        let end = kicks.after rules (kicks.after rules (kicks.after rules u (kicks.Publishes 1))
        (kicks.IndexArrives 1)) kicks.ChecksWish in
        Runs rules u (kicks.Publishes 1 ∷ kicks.IndexArrives 1 ∷ kicks.ChecksWish ∷ []) end
        × (end.published ≡ queue.new.next_used))) }
{
    law_queues();
    law_takers();
    law_givers();
    have_u16_numbers(queue);
    let mut front = [0u8; 160];
    let stores = handle.push(queue, &mut front)?;
    let bytes = seen.to_le_bytes();
    match handle.pushed(queue, bytes) {
        Ok(notice) => Ok((notice, stores)),
        Err(error) => Err(error),
    }
}
