//! A thread that holds a queue's lock: its calls are acts of the model in which no notification is lost
//! (crate `notify`).

ghost use Rattle.std.specs.Prelude.{◌≡◌, ◌≤◌, ◌<◌, ◌^◌, ℕ, false, IfOk, IsTrue, [], ◌∷◌, None, Some, OnOk};
ghost use Rattle.std.specs.Prelude.{Bool, Err, IfErr, OnErr, option_map, nat_lt, ◌-◌, true, if◌then◌else◌};
ghost use Rattle.fs_regions.specs.Places.{places_in};
ghost use Rattle.fs_regions.specs.Walks.{Loaded};
ghost use Rattle.fs_chain.specs.Events.{store_of};
ghost use Rattle.fs_chain.specs.Holds.{HoldsPop, IsPopOf, IsRunQueue, RunState, Pop};
ghost use Rattle.fs_chain.specs.Loads.{ProceedsSo, IsSame, RefusesAPop, whole};
ghost use Rattle.fs_chain.specs.Orders.{give_up_error};
ghost use Rattle.fs_chain.specs.Pops.{AddsSo};
ghost use Rattle.fs_chain.specs.Tickets.{freed};
ghost use Rattle.fs_chain.specs.declared.popping.PopOutcome.{PopOutcome};
ghost use Rattle.fs_chain.specs.declared.state.ChainState.TheVariants as at;
ghost use Rattle.fs_chain.specs.declared.state.InFlight.{InFlight};
ghost use Rattle.notify.specs.Threads.{ActsOver, Rearmer, DropsOne, Loads, Nobody, Silences, SleepsNow};
ghost use Rattle.notify.specs.Threads.{TakesOne, ThreadedQueue, Walker, WishIsThere, Wishes, after_act};
ghost use Rattle.notify.specs.Threads.{may_act};
ghost use Rattle.fs_notify.specs.Takers.{HasPopped, HasU16Numbers, IsIndex, IsModelOf, MutesBy, ways_of};
ghost use Rattle.fs_turns.specs.Worlds.{World, done, may_report};
ghost use Rattle.fs_turns.specs.declared.machine.TurnEvent.TheVariants.{Muted, Popped};
ghost use Rattle.fs_turns.specs.declared.machine.TurnPhase.TheVariants.{Mutes, Pops};
ghost use Rattle.fs_turn_calls.specs.Calls.{HasMuted, IsWorldOf};
ghost use Rattle.notify.specs.Kicks.{back};
ghost use Rattle.worked_callers.specs.Notified.{ActsTo, IsStoredWish};

use fs_chain::{ChainError, ChainHandle, LoadOutcome, NotificationStore, PopOutcome, QueueState};
use fs_notify::law_takers;
use fs_turn_calls::law_turn_calls;

/// The numbers of a queue are of 16 bits.
pub fn have_u16_numbers(queue: &QueueState)
    ensures { HasU16Numbers queue.now }
{
    let _next = queue.next_avail;
    let _used = queue.next_used;
    let _most = queue.max_in_flight;
}

/// The store that enables notifications is the model's wish for the next chain.
pub fn enable_store(queue: &QueueState) -> Option<NotificationStore>
    ensures { (s : ThreadedQueue) → IsModelOf queue.now s → s.holder ≡ Walker
        → IsStoredWish queue.now s result }
{
    law_takers();
    have_u16_numbers(queue);
    queue.notification_store(true)
}

/// The store that disables notifications is the model's, and what the thread reports with `Muted`. With the
/// event index nothing is stored.
pub fn disable_store(queue: &QueueState) -> Option<NotificationStore>
    ensures mutes { (s : ThreadedQueue)
        → IsModelOf queue.now s
        → s.holder ≡ Walker
        → MutesBy queue.now s (option_map store_of result)
        × IsTrue (may_act (ways_of queue.now) s (Silences s.event)) }
    ensures reports { (w : World)
        → IsWorldOf queue.now w
        → HasMuted queue.now w (option_map store_of result)
        × IsTrue (may_report (ways_of queue.now) Mutes w Muted true)
        × IsWorldOf queue.now (done w Muted true) }
{
    law_takers();
    law_turn_calls();
    queue.notification_store(false)
}

/// Goes on with a pop. If it finds no chain, and its caller had made the store of the wish for the next one
/// (`enable_store`), then a barrier, then the load of the index, its thread sleeps as the model's does.
pub fn sleep_if_idle(
    handle: &mut ChainHandle,
    queue: &mut QueueState,
    bytes: &[u8],
) -> Result<LoadOutcome, ChainError>
    requires proceeds { queue.old.stopped ≡ None }
    ensures error { IfErr result (RefusesAPop handle.old queue.old bytes.now) }
    ensures sleeps { IfOk result (λ outcome. (m : RunState) (i : ℕ) (p : Pop) (s : ThreadedQueue)
        → outcome ≡ LoadOutcome.On PopOutcome.Idle
        → HoldsPop m.limit p handle.old
        → IsRunQueue m i queue.old
        → m.places ≡ places_in handle.old.regions
        → IsPopOf queue.old p
        → m.limit ≤ 2 ^ 31
        → IsModelOf queue.old s
        → s.holder ≡ Walker
        → s.index < 2 ^ 16
        → (loaded : Loaded)
        × AddsSo handle.old.state outcome handle.new.descriptors.items p.loaded (whole handle.old bytes.now)
        loaded
        × (index : ℕ)
        × IsIndex loaded index
        × (let ways = ways_of queue.old in
        let end = after_act ways (after_act ways (after_act ways s Wishes) WishIsThere) SleepsNow in
        ActsTo queue.old s (Wishes ∷ WishIsThere ∷ SleepsNow ∷ []) end queue.new index)) }
    ensures order { (s : ThreadedQueue)
        → IsModelOf queue.old s
        → s.holder ≡ Walker
        → s.index ≡ queue.old.next_avail
        → (let ways = ways_of queue.old in
        let end = after_act ways (after_act ways (after_act ways s Wishes) WishIsThere) SleepsNow in
        ActsOver ways s (Wishes ∷ WishIsThere ∷ SleepsNow ∷ []) end × (end.holder ≡ Nobody)) }
{
    law_takers();
    have_u16_numbers(queue);
    handle.pop(queue, bytes)
}

/// Goes on with a pop. If it returns a chain, the model's thread loads the index, and takes one. The thread
/// may report `Popped`, by that index.
pub fn take_one(
    handle: &mut ChainHandle,
    queue: &mut QueueState,
    bytes: &[u8],
) -> Result<LoadOutcome, ChainError>
    requires proceeds { queue.old.stopped ≡ None }
    ensures error { IfErr result (RefusesAPop handle.old queue.old bytes.now) }
    ensures takes { IfOk result
        (λ outcome. (returned : PopOutcome) (m : RunState) (i : ℕ) (p : Pop) (s : ThreadedQueue)
        → outcome ≡ LoadOutcome.On returned
        → HasPopped returned
        → HoldsPop m.limit p handle.old
        → IsRunQueue m i queue.old
        → m.places ≡ places_in handle.old.regions
        → IsPopOf queue.old p
        → m.limit ≤ 2 ^ 31
        → IsModelOf queue.old s
        → s.holder ≡ Walker
        → (loaded : Loaded)
        × AddsSo handle.old.state outcome handle.new.descriptors.items p.loaded (whole handle.old bytes.now)
        loaded
        × (index : ℕ)
        × IsIndex loaded index
        × (let ways = ways_of queue.old in
        ActsTo queue.old s (Loads ∷ TakesOne ∷ []) (after_act ways (after_act ways s Loads) TakesOne)
        queue.new index)) }
    ensures reports { IfOk result
        (λ outcome. (returned : PopOutcome) (m : RunState) (i : ℕ) (p : Pop) (w : World) (fresh : Bool)
        → outcome ≡ LoadOutcome.On returned
        → HasPopped returned
        → HoldsPop m.limit p handle.old
        → IsRunQueue m i queue.old
        → m.places ≡ places_in handle.old.regions
        → IsPopOf queue.old p
        → m.limit ≤ 2 ^ 31
        → IsWorldOf queue.old w
        → (loaded : Loaded)
        × AddsSo handle.old.state outcome handle.new.descriptors.items p.loaded (whole handle.old bytes.now)
        loaded
        × (index : ℕ)
        × IsIndex loaded index
        × ((if fresh then w.index else w.known) ≡ index
        → IsTrue (may_report (ways_of queue.old) Pops w Popped fresh)
        × IsWorldOf queue.new (done w Popped fresh))) }
{
    law_takers();
    law_turn_calls();
    have_u16_numbers(queue);
    handle.pop(queue, bytes)
}

/// Gives up a chain whose request wasn't decoded: the model's thread drops it, and the thread may report
/// `Back`.
pub fn drop_one(handle: &mut ChainHandle, queue: &mut QueueState) -> Result<(), ChainError>
    ensures error { IfErr result (λ e. give_up_error handle.old.state queue.old ≡ Some e) }
    ensures free { OnOk result (handle.new ≡ freed handle.old) }
    ensures drops { OnOk result ((out : InFlight) (s : ThreadedQueue)
        → handle.old.state ≡ at.Popped out
        → IsModelOf queue.old s
        → s.holder ≡ Walker
        → IsTrue (may_act (ways_of queue.old) s DropsOne)
        × IsModelOf queue.new (after_act (ways_of queue.old) s DropsOne)) }
    ensures reports { OnOk result ((out : InFlight) (w : World)
        → handle.old.state ≡ at.Popped out
        → IsWorldOf queue.old w
        → IsTrue (nat_lt 0 w.out)
        × IsWorldOf queue.new (record w { position = back w.position 1; out = w.out - 1 })) }
{
    law_takers();
    law_turn_calls();
    have_u16_numbers(queue);
    handle.give_up(queue)
}

/// The first call of a pop. If it is refused because as many chains are in flight as may be, the model's
/// thread, which stored its wish, sleeps too.
pub fn begin_pop_at_maximum(
    handle: &mut ChainHandle,
    queue: &mut QueueState,
) -> Result<LoadOutcome, ChainError>
    requires free { handle.old.state ≡ at.Free }
    ensures proceeds { IfOk result (λ returned. ProceedsSo handle.old queue.old [] returned handle.new
        queue.new) }
    ensures error { IfErr result (RefusesAPop handle.old queue.old []) }
    ensures same { OnErr result (IsSame handle.old handle.new × (queue.new ≡ queue.old)) }
    ensures full { result ≡ Err ChainError.ChainInFlight
        → (s : ThreadedQueue)
        → IsModelOf queue.old s
        → s.holder ≡ Rearmer
        → s.hidden ≡ false
        → IsTrue (may_act (ways_of queue.old) s SleepsNow)
        × IsModelOf queue.new (after_act (ways_of queue.old) s SleepsNow) }
{
    law_takers();
    handle.pop(queue, &[])
}
