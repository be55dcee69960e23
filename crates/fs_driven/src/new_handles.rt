//! Commands of a driver from two new handles on. That they are a run is by `law_driven` and by the
//! contract of `drive_all`.

ghost use Rattle.std.specs.Prelude.{◌≡◌, IfErr, IfOk, None, OnErr, OnOk, Some, drop, length};
ghost use Rattle.fs_chain.specs.Orders.{memory_error};
ghost use Rattle.fs_chain.specs.declared.state.ChainState.TheVariants as at;
ghost use Rattle.fs_driven.specs.Begins.{IsFreeOver, RunsFromNew};
ghost use Rattle.fs_driven.specs.Events.{calls_of};

use crate::commands::{DriverCall, Results, drive_all};
use crate::laws::law_driven;
use fs_chain::{ChainError, ChainHandle, QueueState};
use fs_regions::GuestMap;
use std::alloc::Global;

// A new handle over a memory, with this limit.
#[tactic(auto, using(crate::proofs::Begins::is_new))]
fn new_handle(alloc: Global, regions: GuestMap, limit: u32) -> Result<ChainHandle, ChainError>
    ensures error { IfErr result (λ e. memory_error at.Free limit ≡ Some e) }
    ensures ok { OnOk result (memory_error at.Free limit ≡ None) }
    ensures new { IfOk result (λ w. IsFreeOver regions limit w) }
{
    let mut handle = ChainHandle::new(alloc);
    handle.set_memory(regions, limit)?;
    Ok(handle)
}

/// Performs commands for two new handles over these memories, which have the same mappings, and returns the
/// handles. `BadArgument` for a wrong limit; then no command is performed.
#[tactic(auto, using(crate::proofs::Begins::runs_from_new))]
pub fn drive_new<'a>(
    alloc: Global,
    memories: (GuestMap, GuestMap),
    limit: u32,
    queues: &mut [QueueState],
    on: &[usize],
    page_size: u32,
    places: &[usize],
    commands: &mut [DriverCall<'a>],
    returned: &mut [Results<'a>],
) -> Result<[ChainHandle; 2], ChainError>
    ensures error { IfErr result (λ e. memory_error at.Free limit ≡ Some e) }
    ensures ok { OnOk result (memory_error at.Free limit ≡ None) }
    ensures same { OnErr result ((queues.new ≡ queues.old)
        × (commands.new ≡ commands.old)
        × (returned.new ≡ returned.old)) }
    ensures run { IfOk result (λ handles. RunsFromNew on.now page_size limit memories.0 memories.1
        queues.old queues.new handles (calls_of places.now commands.old returned.new)) }
    ensures behind_places { OnOk result
        (drop (length places.now) returned.new ≡ drop (length places.now) returned.old) }
    ensures behind_commands { OnOk result
        (drop (length commands.old) returned.new ≡ drop (length commands.old) returned.old) }
    ensures left_places { OnOk result
        (drop (length places.now) commands.new ≡ drop (length places.now) commands.old) }
    ensures left_results { OnOk result
        (drop (length returned.old) commands.new ≡ drop (length returned.old) commands.old) }
{
    let one = new_handle(alloc, memories.0, limit)?;
    let other = new_handle(alloc, memories.1, limit)?;
    let mut handles = [one, other];
    law_driven();
    drive_all(
        &mut handles,
        queues,
        on,
        page_size,
        places,
        commands,
        returned,
    );
    Ok(handles)
}
