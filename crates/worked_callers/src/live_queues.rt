//! Chains of one queue, one after another: theorems of the live machine on worked values.

ghost use Rattle.std.specs.Prelude.{◌≡◌, ◌%◌, ◌^◌, ℕ, [], ◌∷◌, None};
ghost use Rattle.plain_machine.specs.Run.{KickRun};
ghost use Rattle.live_machine.specs.Live.{Happens, MovesDevice};
ghost use Rattle.live_machine.specs.Overlap.{at_positions, first_table, state};
ghost use Rattle.live_machine.specs.Runs.{marks_of};
ghost use Rattle.live_machine.specs.Serial.{plain, turn_of};
ghost use Rattle.fuse_fs.specs.Calls.{Destroy, Done};
ghost use Rattle.worked_callers.specs.InALoop.{SleepsServed};
ghost use Rattle.worked_callers.specs.InARow.{after_both, one, two, with_both};
ghost use Rattle.worked_callers.specs.WorkedRuns.{fills_at, first_in_flight, moved_to};

use fs_chain::ChainHandle;
use fs_chain::laws::law_handles;
use fs_turn_calls::law_runs_lose_no_turn;
use fuse_fs::FileSystem;
use live_machine::law_serial;

/// Two chains of one queue, one after the other, over a memory that has their bytes. They are the plain
/// machine's run of these two turns for one notification.
pub fn law_served_turns<F: FileSystem>()
    ensures { (before after : F)
        → F.may before Destroy Done after
        → KickRun F.may (plain (state before (at_positions 0 0) 1 []) with_both) 0 2
        (turn_of one ∷ turn_of two ∷ []) None (plain (state after (at_positions 2 2) 0 []) after_both) }
{
    law_serial::<F>();
}

/// A thread pops and pushes these two chains, interrupts the driver after each, and sleeps. Then no chain of
/// the queue is available, and no push wants an interrupt.
pub fn law_served_in_a_loop<F: FileSystem>()
    ensures { (before after : F) → F.may before Destroy Done after → SleepsServed F.may before after }
{
    law_runs_lose_no_turn::<F>();
}

/// While the first chain is in flight, two bytes are stored in its reply buffer, at the addresses of its
/// fifth and sixth byte. Once both chains are pushed, the device is recorded, and read elsewhere.
pub fn law_filled_and_moved<F: FileSystem>()
    ensures fills { (files : F) (handle : ChainHandle)
        → handle.descriptors.items ≡ first_table
        → (address : ℕ)
        × (0x2004 ≡ address % 2 ^ 64)
        × Happens F.may (first_in_flight files) (fills_at address) (first_in_flight files)
        × (marks_of (first_in_flight files) (fills_at address) ≡ 0x2004 ∷ 0x2005 ∷ []) }
    ensures moves { (files : F)
        → Happens F.may (state files (at_positions 2 2) 0 []) (MovesDevice with_both (at_positions 2 2 ∷ []))
        (moved_to with_both files) }
{
    law_handles::<F>();
}
