//! New memory for each handle of a driver, or for none; and the move of a device.

ghost use Rattle.std.specs.Prelude.{◌≡◌, ◌∷◌, [], ℕ, List, None, IfErr, IfOk, OnErr, OnOk, length, map, true};
ghost use Rattle.fs_regions.specs.Places.{untranslated};
ghost use Rattle.fs_driven.specs.Moving.{have_valid_maximum, restored};
ghost use Rattle.fs_driven.specs.NewMemory.{HaveNone, IsErrorOf, TakeMemory, are_idle, handles_error};
ghost use Rattle.fs_driven.specs.NewMemory.{regions_error, remap_error};
ghost use Rattle.fs_driven.specs.Events.{Drives, call_of};
ghost use Rattle.fs_driven.specs.declared.commands.DriverCall.TheVariants as does;
ghost use Rattle.fs_driven.specs.declared.commands.Results.TheVariants as gives;

use fs_chain::{ChainError, ChainHandle, QueueState};
use fs_regions::{GuestMap, GuestRegions, MemoryRegion, RegionsError};
use memory_requests::list_with_room;
use std::alloc::Global;

// A copy of some regions.
fn copied(alloc: Global, regions: &[MemoryRegion]) -> Result<Vec<MemoryRegion>, ChainError>
    ensures ok { IfOk result (λ made. made.items ≡ regions.now) }
    ensures err { IfErr result (IsErrorOf None (length regions.now)) }
{
    let Ok(mut made) = list_with_room(alloc, regions.len()) else {
        return Err(ChainError::OutOfMemory);
    };
    made.extend_from_slice(regions).unwrap();
    Ok(made)
}

// The memory of some regions.
fn map_of(alloc: Global, regions: &[MemoryRegion]) -> Result<GuestMap, ChainError>
    ensures ok { IfOk result (λ map. map ≡ untranslated regions.now) }
    ensures is { OnOk result (regions_error regions.now ≡ None) }
    ensures err { IfErr result (IsErrorOf (regions_error regions.now) (length regions.now)) }
{
    let made = match copied(alloc, regions) {
        Ok(made) => made,
        Err(e) => return Err(e),
    };
    match GuestRegions::of_regions(alloc, made) {
        Ok(memory) => Ok(GuestMap::of_regions(memory)),
        Err(RegionsError::OutOfMemory) => Err(ChainError::OutOfMemory),
        Err(_) => Err(ChainError::BadArgument),
    }
}

// Sets the memory of each handle, which keeps its limit, or of none.
fn set_each(
    alloc: Global,
    handles: &mut [ChainHandle],
    regions: &[MemoryRegion],
) -> Result<(), ChainError>
    ensures ok { OnOk result (TakeMemory regions.now handles.old handles.new) }
    ensures is { OnOk result (handles_error handles.old regions.now ≡ None) }
    ensures err { IfErr result (IsErrorOf (handles_error handles.old regions.now) (length regions.now)) }
    ensures same { OnErr result (handles.new ≡ handles.old) }
{
    match handles.split_first_mut() {
        None => Ok(()),
        Some((handle, others)) => {
            let limit = handle.limit();
            if let Some(e) = handle.memory_refusal(limit) {
                return Err(e);
            }
            match map_of(alloc, regions) {
                Ok(map) => match set_each(alloc, others, regions) {
                    Ok(()) => handle.set_memory(map, limit),
                    Err(e) => Err(e),
                },
                Err(e) => Err(e),
            }
        }
    }
}

// Whether no chain of these queues is in flight.
fn are_idle(queues: &[QueueState]) -> bool
    ensures is { result ≡ are_idle queues.now }
    ensures counts { result ≡ true → HaveNone queues.now }
{
    match queues.split_first() {
        None => true,
        Some((queue, others)) => {
            // Numbers of 16 bits.
            let _max_in_flight = queue.max_in_flight;
            let _next_used = queue.next_used;
            let _next_avail = queue.next_avail;
            queue.in_flight() == 0 && are_idle(others)
        }
    }
}

// The same while no chain of the queues is in flight.
#[tactic(auto, using(crate::proofs::Remaps::busy, crate::proofs::Remaps::idle, crate::proofs::Remaps::fails))]
fn remap(
    alloc: Global,
    handles: &mut [ChainHandle],
    queues: &[QueueState],
    regions: &[MemoryRegion],
) -> Result<(), ChainError>
    ensures ok { OnOk result (TakeMemory regions.now handles.old handles.new) }
    ensures idle { OnOk result (HaveNone queues.now) }
    ensures is { OnOk result (remap_error handles.old queues.now regions.now ≡ None) }
    ensures err { IfErr result
        (IsErrorOf (remap_error handles.old queues.now regions.now) (length regions.now)) }
    ensures same { OnErr result (handles.new ≡ handles.old) }
{
    if !are_idle(queues) {
        return Err(ChainError::ChainInFlight);
    }
    set_each(alloc, handles, regions)
}

/// Sets the memory of each handle to some regions, while no chain of the queues is in flight. A handle keeps
/// its limit. `ChainInFlight` if a chain is in flight or a handle isn't free; `BadArgument` if the regions
/// aren't a memory; `OutOfMemory`. Then nothing changed.
#[tactic(auto, using(crate::proofs::Remaps::remap_result))]
pub fn drive_remap(
    alloc: Global,
    handles: &mut [ChainHandle],
    queues: &[QueueState],
    regions: &[MemoryRegion],
) -> Result<(), ChainError>
    ensures step { (on : List ℕ) (page_size k : ℕ) →
        Drives on page_size handles.old handles.new queues.now queues.now
        (call_of k (does.Remap alloc regions.entry) (gives.Remapped result) ∷ []) }
{
    remap(alloc, handles, queues, regions)
}

// Resets queues to what their record keeps: each its layout, its position, and whether it is stopped.
fn restore(queues: &mut [QueueState])
    ensures { queues.new ≡ map restored queues.old }
{
    if let Some((queue, others)) = queues.split_first_mut() {
        let stopped = queue.stopped;
        let (layout, position) = (queue.layout, queue.next_avail);
        queue.reset(layout, position);
        queue.stopped = stopped;
        restore(others);
    }
}

// Moves a device, and restores its queues.
fn move_over(
    alloc: Global,
    handles: &mut [ChainHandle],
    queues: &mut [QueueState],
    regions: &[MemoryRegion],
) -> Result<(), ChainError>
    ensures ok { OnOk result (TakeMemory regions.now handles.old handles.new) }
    ensures idle { OnOk result (HaveNone queues.old) }
    ensures is { OnOk result (remap_error handles.old queues.old regions.now ≡ None) }
    ensures queues { OnOk result (queues.new ≡ map restored queues.old) }
    ensures err { IfErr result
        (IsErrorOf (remap_error handles.old queues.old regions.now) (length regions.now)) }
    ensures same { OnErr result ((handles.new ≡ handles.old) × (queues.new ≡ queues.old)) }
{
    match remap(alloc, handles, queues, regions) {
        Ok(()) => {
            restore(queues);
            Ok(())
        }
        Err(e) => Err(e),
    }
}

// Whether from one chain to as many as each queue has descriptors may be in flight.
fn have_maximum(queues: &[QueueState]) -> bool
    ensures is { result ≡ have_valid_maximum queues.now }
{
    match queues.split_first() {
        None => true,
        Some((queue, others)) => {
            if queue.max_in_flight < 1 || queue.layout.size() < queue.max_in_flight {
                return false;
            }
            have_maximum(others)
        }
    }
}

/// Moves a device while no chain of its queues is in flight: each handle takes the new memory, and each queue
/// is reset to the layout and the position that it has, stopped or not, as by its record. `BadArgument` if
/// more chains may be in flight than a queue has descriptors, or none; otherwise the errors of `drive_remap`.
#[tactic(auto, using(crate::proofs::Moving::move_result, crate::proofs::Moving::no_maximum))]
pub fn drive_move(
    alloc: Global,
    handles: &mut [ChainHandle],
    queues: &mut [QueueState],
    regions: &[MemoryRegion],
) -> Result<(), ChainError>
    ensures step { (on : List ℕ) (page_size k : ℕ) →
        Drives on page_size handles.old handles.new queues.old queues.new
        (call_of k (does.Move alloc regions.entry) (gives.Moved result) ∷ []) }
{
    if !have_maximum(queues) {
        return Err(ChainError::BadArgument);
    }
    move_over(alloc, handles, queues, regions)
}
