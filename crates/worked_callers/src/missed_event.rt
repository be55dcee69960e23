//! A queue with the event index whose used_event isn't mapped. A pop behind a table misses it; without a
//! table the pop is refused.

ghost use Rattle.std.specs.Prelude.{◌≡◌, ◌≤◌, ◌+◌, [], IfOk, None, Some};
ghost use Rattle.vm_iotlb.specs.AddressRuns.{run_of};
ghost use Rattle.vm_iotlb.specs.declared.permissions.Permissions.{Permissions};
ghost use Rattle.fs_regions.specs.Misses.{last_page};
ghost use Rattle.fs_regions.specs.Places.{behind, untranslated};
ghost use Rattle.fs_chain.specs.Events.{used_event_at};
ghost use Rattle.fs_chain.specs.Holds.{live_of};
ghost use Rattle.fs_chain.specs.declared.state.ChainState.TheVariants as at;
ghost use Rattle.live_machine.specs.Several.{HasEventIndex};

use fs_chain::{ChainError, ChainHandle, LoadOutcome, PopOutcome, QueueState};
use fs_queue::QueueError;
use fs_regions::{GuestMap, GuestRegions};
use std::alloc::Global;
use vm_memory_core::Iotlb;

/// Pops a queue with the event index, with a handle that gets these regions and a table that maps nothing.
/// The pop misses the two bytes of used_event, before any load. The queue stays as it was, and the handle is
/// free.
pub fn miss_used_event(
    alloc: Global,
    handle: &mut ChainHandle,
    queue: &mut QueueState,
    regions: GuestRegions,
) -> Result<LoadOutcome, ChainError>
    requires free { handle.old.state ≡ at.Free }
    requires proceeds { queue.old.stopped ≡ None }
    requires events { HasEventIndex (live_of queue.old) }
    requires low { used_event_at queue.old.layout + 2 ≤ last_page }
    ensures missed { IfOk result (λ returned.
        (returned ≡ LoadOutcome.On
        (PopOutcome.Missing (run_of (used_event_at queue.old.layout) 2) Permissions.Read))
        × (queue.new ≡ queue.old)
        × (handle.new.state ≡ at.Free)
        × (handle.new.descriptors.items ≡ [])
        × (handle.new.part.items ≡ [])
        × (handle.new.regions ≡ behind regions [])
        × (handle.new.limit ≡ 0x101000)
        × (handle.new.session ≡ handle.old.session)
        × (handle.new.ticket ≡ handle.old.ticket)
        × (handle.new.list_len ≡ handle.old.list_len)) }
{
    handle.set_memory(GuestMap::behind(regions, Iotlb::new(alloc)), 0x101000)?;
    handle.pop(queue, &[])
}

/// Pops a queue with the event index, with a handle that gets neither regions nor a table. The pop is refused
/// before any load, since used_event isn't mapped, and the queue is stopped.
pub fn pop_without_regions(
    alloc: Global,
    handle: &mut ChainHandle,
    queue: &mut QueueState,
) -> Result<LoadOutcome, ChainError>
    requires free { handle.old.state ≡ at.Free }
    requires proceeds { queue.old.stopped ≡ None }
    requires events { HasEventIndex (live_of queue.old) }
    ensures refused { IfOk result (λ returned.
        (returned ≡ LoadOutcome.On (PopOutcome.Refused QueueError.AvailFlagsUnreachable))
        × (queue.new ≡ record queue.old { stopped = Some QueueError.AvailFlagsUnreachable })
        × (handle.new.state ≡ at.Free)
        × (handle.new.descriptors.items ≡ [])
        × (handle.new.part.items ≡ [])
        × (handle.new.regions ≡ untranslated [])
        × (handle.new.limit ≡ 0x101000)
        × (handle.new.session ≡ handle.old.session)
        × (handle.new.ticket ≡ handle.old.ticket)
        × (handle.new.list_len ≡ handle.old.list_len)) }
{
    handle.set_memory(GuestMap::none(alloc), 0x101000)?;
    handle.pop(queue, &[])
}
