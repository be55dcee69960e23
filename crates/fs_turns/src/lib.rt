//! What a thread of a queue does next: a machine without input and output, which lies under the
//! queue's lock. A thread says what happened, gets one action, performs it, and says what happened.
//!
//! Threads that do so are a run of the model of notifications (crate `notify`), for any order in which
//! they get the lock, and any driver that keeps VIRTIO 1.2: `law_no_turn_is_lost`.
#![tactic(auto)]

ghost use Rattle.fs_turns.specs.Lives.{NoTurnIsLostOverResets, NoInterruptIsLostOverResets};
ghost use Rattle.fs_turns.specs.Used.{NoUsedIsUnnotified};
ghost use Rattle.fs_turns.specs.Worlds.{NoTurnIsLost, NoInterruptIsLost};

mod machine;

pub use machine::{Notifications, Seen, TurnAction, TurnEvent, TurnOrders, TurnPhase, Turns};
use notify::law_no_lost_notification;

/// Any number of threads that do what [`Turns::next`] returns and report what they did, beside any
/// driver that keeps VIRTIO 1.2 (2.7.13, 2.7.14), with `VIRTIO_F_EVENT_IDX` or without, are a run of
/// the model of notifications.
/// - While a thread sleeps and no thread is going to look, no chain waits whose answer came later. And
///   no chain is available: unless the queue is paused, or as many chains are in flight as may be, or
///   the driver has yet to check whether to notify, or to notify.
/// - While a push wants an interrupt, a thread has yet to make one, or holds the lock.
/// - Both hold also if the queue was reset while threads slept ([`Turns::reset`]).
/// - Without a reset: while the driver sleeps, and more chains are used than it chose to sleep through,
///   an interrupt is on its way, or a thread has yet to make one, or holds the lock.
pub fn law_no_turn_is_lost()
    ensures none_lost { NoTurnIsLost }
    ensures none_forgotten { NoInterruptIsLost }
    ensures none_lost_over_resets { NoTurnIsLostOverResets }
    ensures none_forgotten_over_resets { NoInterruptIsLostOverResets }
    ensures none_unnotified { NoUsedIsUnnotified }
{
    law_no_lost_notification();
}
