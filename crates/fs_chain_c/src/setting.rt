//! Setting a handle's memory and its next ticket.

ghost use Rattle.std.specs.Prelude.{◌≡◌, IfOk, IfErr, OnErr, OnOk, option_map};
ghost use Rattle.fs_chain_c.specs.Handles.{ProceedsOver, IsNewHandle, MakesHandle, RefusesMemory};
ghost use Rattle.fs_chain_c.specs.Handles.{RefusesNew, SetsHandle, NumbersHandle, SetsMemory};

use crate::device::FsDevice;
use crate::handle::FsChain;
use crate::memory::{FsRegion, memory_of};
use crate::status::{BAD_DEVICE, StatusRefusal};
use fs_chain::{ChainError, ChainHandle};
use fs_regions::GuestMap;
use memory_requests::boxed;
use std::alloc::Global;

// Sets the regions of the next pops, and the device's limit.
fn go_over(
    alloc: Global,
    handle: &mut ChainHandle,
    device: &FsDevice,
    regions: &[FsRegion],
) -> Result<(), StatusRefusal>
    ensures ok { OnOk result (ProceedsOver handle.old device.now regions.now handle.new) }
    ensures refused { IfErr result (RefusesMemory handle.old device.now regions.now) }
    ensures same { OnErr result (handle.new ≡ handle.old) }
{
    if !device.is_lawful() {
        return Err(StatusRefusal::Invalid(BAD_DEVICE));
    }
    match memory_of(alloc, regions) {
        Ok(memory) => match handle.set_memory(GuestMap::of_regions(memory), device.limit) {
            Ok(()) => Ok(()),
            Err(error) => Err(StatusRefusal::Of(error)),
        },
        Err(refusal) => Err(refusal),
    }
}

/// Sets a handle's memory, and returns a status.
pub fn set_handle(
    alloc: Global,
    handle: &mut ChainHandle,
    device: &FsDevice,
    regions: &[FsRegion],
) -> u32
    ensures { SetsHandle handle.old device.now regions.now result handle.new }
{
    match go_over(alloc, handle, device, regions) {
        Ok(()) => 0,
        Err(refusal) => refusal.status(),
    }
}

// A new handle over these regions, with the device's limit.
fn made(
    alloc: Global,
    device: &FsDevice,
    regions: &[FsRegion],
) -> Result<Box<ChainHandle>, StatusRefusal>
    ensures ok { IfOk result (λ made. (b : ChainHandle)
        × IsNewHandle b
        × ProceedsOver b device.now regions.now made.value) }
    ensures refused { IfErr result (RefusesNew device.now regions.now) }
{
    if !device.is_lawful() {
        return Err(StatusRefusal::Invalid(BAD_DEVICE));
    }
    let memory = memory_of(alloc, regions)?;
    let mut handle = ChainHandle::new(alloc);
    match handle.set_memory(GuestMap::of_regions(memory), device.limit) {
        Ok(()) => match boxed(alloc, handle) {
            Ok(handle) => Ok(handle),
            Err(_) => Err(StatusRefusal::Of(ChainError::OutOfMemory)),
        },
        Err(error) => Err(StatusRefusal::Of(error)),
    }
}

/// A new handle with its memory, if one is made, and a status.
pub fn make_handle(
    alloc: Global,
    device: &FsDevice,
    regions: &[FsRegion],
) -> (Option<Box<ChainHandle>>, u32)
    ensures { MakesHandle device.now regions.now result.1 (option_map (λ b. b.value) result.0) }
{
    match made(alloc, device, regions) {
        Ok(handle) => (Some(handle), 0),
        Err(refusal) => (None, refusal.status()),
    }
}

/// Sets the memory of the chain's next pops, and the device's limit. A handle of zeros gets its box.
pub fn set_memory(
    alloc: Global,
    chain: &mut FsChain,
    device: &FsDevice,
    regions: &[FsRegion],
) -> u32
    ensures { SetsMemory chain.old.held.value device.now regions.now result chain.new.held.value }
{
    match chain.take(alloc) {
        Some(mut handle) => {
            let status = set_handle(alloc, &mut handle, device, regions);
            *chain = FsChain::of_box(handle);
            status
        }
        None => {
            let (made, status) = make_handle(alloc, device, regions);
            match made {
                Some(handle) => {
                    *chain = FsChain::of_box(handle);
                    status
                }
                None => status,
            }
        }
    }
}

/// Sets the ticket of a handle's next chain, and returns a status.
pub fn number_handle(handle: &mut ChainHandle, first: u32) -> u32
    ensures { NumbersHandle handle.old first result handle.new }
{
    match handle.number_from(first) {
        Ok(()) => 0,
        Err(error) => u32::from(error.number()),
    }
}
