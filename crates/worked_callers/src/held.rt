//! What a handle holds of a run once its pop began: few loads, each of mapped addresses.

ghost use Rattle.std.specs.Prelude.{◌≡◌, ◌≤◌, ◌<◌, ◌+◌, ◌^◌, ℕ, IfOk, IfSome, is_some, true};
ghost use Rattle.vm_iotlb.specs.declared.permissions.Permissions.{Permissions};
ghost use Rattle.vm_memory.specs.Memory.{location};
ghost use Rattle.fs_regions.specs.Places.{places_in};
ghost use Rattle.fs_regions.specs.Walks.{asked_by, asked_len, nothing};
ghost use Rattle.fs_chain.specs.Held.{load_count};
ghost use Rattle.fs_chain.specs.Holds.{HoldsPop, IsRunQueue, RunState, pop_of};
ghost use Rattle.fs_chain.specs.declared.state.ChainState.TheVariants as at;

use fs_chain::laws::law_held;
use fs_chain::{ChainError, ChainHandle, LoadOutcome, PopOutcome, QueueState};

/// Begins a pop. Returns the length of the load that it asks for; None if it ended. In each run with this
/// queue, memory and limit the handle holds the pop then. It has fewer loads than the queue has descriptors,
/// and four, and the bytes that it asks for are mapped.
pub fn begin_held_pop(
    handle: &mut ChainHandle,
    queue: &mut QueueState,
) -> Result<Option<usize>, ChainError>
    requires free { handle.old.state ≡ at.Free }
    ensures held { IfOk result (λ on. IfSome on (λ n. (s : RunState) (i : ℕ)
        → IsRunQueue s i queue.old
        → s.places ≡ places_in handle.old.regions
        → s.limit ≡ handle.old.limit
        → s.limit ≤ 2 ^ 31
        → (held : HoldsPop s.limit (pop_of queue.old nothing) handle.new)
        × (load_count nothing + 1 ≤ held.course.layout.size + 4)
        × ((j : ℕ)
        → j < asked_len held.walk
        → is_some (location (places_in handle.new.regions) Permissions.Read (asked_by held.walk + j))
        ≡ true))) }
{
    law_held();
    match handle.pop(queue, &[])? {
        LoadOutcome::On(PopOutcome::Load(len)) => Ok(Some(len)),
        _ => Ok(None),
    }
}
