//! A popped chain is the offer of each memory over the handle's regions that has the pop's loads.

ghost use Rattle.std.specs.Prelude.{◌≡◌, ◌≤◌, ◌^◌, ℕ, List, None, Some, IfErr, IfOk, length};
ghost use Rattle.vm_memory.specs.Memory.{Memory};
ghost use Rattle.vm_memory_core.specs.Host.{Host};
ghost use Rattle.fs_queue.specs.Chain.{entry_address};
ghost use Rattle.fs_queue.specs.Loads.{AreEntriesOf, IsLoadOf};
ghost use Rattle.fs_queue.specs.SteppingView.{visit_of};
ghost use Rattle.fs_queue.specs.Taking.{offer};
ghost use Rattle.fs_regions.specs.Laws.{HasLoaded};
ghost use Rattle.fs_regions.specs.Places.{memory_over, places_in};
ghost use Rattle.fs_regions.specs.Walks.{AddsEntries, Loaded};
ghost use Rattle.fs_regions.specs.declared.course.Course.{Course};
ghost use Rattle.fs_regions.specs.declared.step.CourseStep.{CourseStep};
ghost use Rattle.fs_regions.specs.declared.entries.EntriesWalk.{EntriesWalk};
ghost use Rattle.fs_regions.specs.declared.walk.QueueWalk.TheVariants as asks;
ghost use Rattle.fs_chain.specs.Holds.{HoldsPop, IsPopOf, IsRunQueue, RunState, Pop, live_of};
ghost use Rattle.fs_chain.specs.Laws.{IsOfferOf};
ghost use Rattle.fs_chain.specs.Loads.{RefusesAPop, whole};
ghost use Rattle.fs_chain.specs.Pops.{AddsSo};
ghost use Rattle.fs_chain.specs.declared.popping.PopOutcome.{PopOutcome};
ghost use Rattle.fs_chain.specs.declared.state.ChainState.TheVariants as at;
ghost use Rattle.fs_chain.specs.declared.state.PopId.{PopId};
ghost use Rattle.fs_notify.specs.Takers.{HasPopped};

use fs_chain::laws::law_walks;
use fs_chain::{ChainError, ChainHandle, LoadOutcome, QueueState};
use fs_regions::laws::law_read_out;

/// Goes on with a pop. A chain that it returns is the offer of each memory that has the pop's loads, and the
/// request's bytes. A memory that has the bytes of a part of a table has each entry that the pop reads out
/// of them.
pub fn continue_pop_as_offer(
    handle: &mut ChainHandle,
    queue: &mut QueueState,
    bytes: &[u8],
) -> Result<LoadOutcome, ChainError>
    requires proceeds { queue.old.stopped ≡ None }
    ensures error { IfErr result (RefusesAPop handle.old queue.old bytes.now) }
    ensures offered { IfOk result (λ outcome. (returned : PopOutcome) (s : RunState) (i : ℕ) (p : Pop)
        → outcome ≡ LoadOutcome.On returned
        → HasPopped returned
        → HoldsPop s.limit p handle.old
        → IsRunQueue s i queue.old
        → s.places ≡ places_in handle.old.regions
        → IsPopOf queue.old p
        → s.limit ≤ 2 ^ 31
        → (loaded : Loaded)
        × AddsSo handle.old.state outcome handle.new.descriptors.items p.loaded (whole handle.old bytes.now)
        loaded
        × ((h : Host) (request : List ℕ)
        → HasLoaded (memory_over h handle.old.regions) (live_of queue.old).queue loaded request
        → IsOfferOf handle.new.descriptors.items returned request
        (offer (memory_over h handle.old.regions) s.limit (live_of queue.old).queue))) }
    ensures read_out { IfOk result (λ outcome. (loaded after : Loaded) (course : Course) (pop_id : PopId)
        (walk : EntriesWalk) (m : Memory) (returned : PopOutcome)
        → outcome ≡ LoadOutcome.On returned
        → handle.old.state ≡ at.Popping course pop_id (asks.Entries walk)
        → AddsSo handle.old.state outcome handle.new.descriptors.items loaded (whole handle.old bytes.now)
        after
        → IsLoadOf m (length (whole handle.old bytes.now)) (record {
          address = entry_address (visit_of walk.walk);
          came = Some (whole handle.old bytes.now);
        })
        → (came : CourseStep)
        × (adds : AddsEntries (entry_address (visit_of walk.walk)) (whole handle.old bytes.now) came loaded
        after)
        × AreEntriesOf m adds.reads) }
{
    law_read_out();
    law_walks();
    handle.pop(queue, bytes)
}
