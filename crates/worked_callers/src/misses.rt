//! A pop that misses addresses of an IOMMU's table is no step.

ghost use Rattle.std.specs.Prelude.{◌≡◌, ◌<◌, ◌≤◌, ◌+◌, ◌^◌, ℕ, IfOk};
ghost use Rattle.vm_iotlb.specs.declared.iova.IovaRange.{IovaRange};
ghost use Rattle.vm_iotlb.specs.declared.permissions.Permissions.{Permissions};
ghost use Rattle.fs_regions.specs.Misses.{last_page};
ghost use Rattle.fs_regions.specs.Places.{places_in};
ghost use Rattle.fs_regions.specs.Walks.{nothing};
ghost use Rattle.fs_chain.specs.Holds.{IsRunQueue, RunState, MissesUnless, live_of};
ghost use Rattle.fs_chain.specs.declared.state.ChainState.TheVariants as at;
ghost use Rattle.live_machine.specs.Live.{pop_refusal};

use fs_chain::{ChainError, ChainHandle, LoadOutcome, PopOutcome, QueueState};
use fs_regions::laws::law_misses_can_be_mapped;

/// Begins a pop. A miss leaves the queue as it was and the handle free. It is of the addresses that the pop
/// needs first: those of used_event or avail_event, or else of the available index. A table of whole pages
/// can map them.
pub fn pop_or_miss(
    handle: &mut ChainHandle,
    queue: &mut QueueState,
) -> Result<LoadOutcome, ChainError>
    requires free { handle.old.state ≡ at.Free }
    ensures missed { IfOk result
        (λ returned. (s : RunState) (i : ℕ) (range : IovaRange) (access : Permissions)
        → returned ≡ LoadOutcome.On (PopOutcome.Missing range access)
        → IsRunQueue s i queue.old
        → s.places ≡ places_in handle.old.regions
        → s.limit ≡ handle.old.limit
        → s.limit ≤ 2 ^ 31
        → (queue.new ≡ queue.old)
        × (handle.new.state ≡ at.Free)
        × MissesUnless (pop_refusal s.places (live_of queue.old)) s (live_of queue.old) nothing
        handle.new.descriptors.items range access
        × (0 < range.length)
        × (range.base.0 + range.length ≤ last_page)) }
{
    law_misses_can_be_mapped();
    handle.pop(queue, &[])
}
