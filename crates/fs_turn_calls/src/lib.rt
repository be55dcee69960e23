//! What a handle's calls return is what a thread may report to the machine of turns.
#![tactic(auto)]

ghost use Rattle.fs_turn_calls.specs.Calls.{ArmsByStore, DropReports, FullReports, IdleReports, MuteReports};
ghost use Rattle.fs_turn_calls.specs.Calls.{PopReports, PushReports};
ghost use Rattle.fs_turn_calls.specs.Loop.{NoInterruptIsLostInRuns, NoTurnIsLostInRuns, WorldStays};

use fs_notify::law_takers;
use fs_turns::law_no_turn_is_lost;
use fuse_fs::FileSystem;

/// A pop that ends with a chain is `Popped`, by the index that was loaded now, or last. One that ends
/// without is `Idle`, by the index in memory now; one refused because of the most chains in flight is
/// `Full`. The stores that enable and disable notifications are those of `Armed` and `Muted`. A chain
/// that is pushed or dropped is so with `Back`.
pub fn law_turn_calls()
    ensures popped { PopReports }
    ensures idle { IdleReports }
    ensures full { FullReports }
    ensures arms { ArmsByStore }
    ensures muted { MuteReports }
    ensures dropped { DropReports }
    ensures pushed { PushReports }
{
    law_takers();
}

/// A live run of any queues, and the threads of one of them, in any order: the calls of handles, resets, the
/// stores that enable and disable notifications, and moves of the device. What a thread reports is what its
/// call returned.
/// - The threads' world stays the queue's: the same next position, and as many chains in flight.
/// - While a thread sleeps and no thread is going to look, no chain of the queue is available, and none waits
///   whose answer came later, as in `law_no_turn_is_lost`.
/// - Once no thread holds the lock or has yet to interrupt the driver, no push wants an interrupt.
pub fn law_runs_lose_no_turn<F: FileSystem>()
    ensures stays { WorldStays F.may }
    ensures none_lost { NoTurnIsLostInRuns F.may }
    ensures none_forgotten { NoInterruptIsLostInRuns F.may }
{
    law_no_turn_is_lost();
}
