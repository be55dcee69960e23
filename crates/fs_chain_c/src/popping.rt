//! A pop by loads that C makes: in parts, if a load crosses the end of a region.

ghost use Rattle.std.specs.Prelude.{◌≡◌, ◌≤◌};
ghost use Rattle.fs_regions.specs.Ahead.{loads_ahead};
ghost use Rattle.fs_chain_c.specs.Popping.{FillsLoad, FillsWanted, FillsOutcome, PopsHandle};
ghost use Rattle.fs_chain_c.specs.Popping.{PopsHandleAhead, host_at, no_step};

use crate::access::access_number;
use crate::queue::FsQueue;
use fs_chain::{ChainHandle, LoadOutcome, PopOutcome};
use fs_regions::LoadAhead;
use vm_memory_core::VolatileSlice;

/// Load these bytes, and call again with them.
pub const LOAD: u32 = 32;

/// No chain is available.
pub const IDLE: u32 = 33;

/// An I/O address isn't mapped in the table.
pub const MISS: u32 = 39;

/// The address of a load or store isn't mapped.
pub const NOT_MAPPED: u32 = 77;

/// A pop's result: a load, or a chain. All other fields are 0.
#[repr(C)]
#[derive(Clone, Copy)]
pub struct FsPopResult {
    /// The host address of the load.
    pub load_at: usize,
    /// How many bytes to load, at most PK_LOAD_MAX.
    pub load_len: usize,
    /// How many bytes the chain's request has.
    pub request_len: u64,
    /// The bytes of its reply buffer.
    pub reply_len: u64,
    /// Its fault's number, from 1 to 10 (0: none).
    pub fault: u32,
    /// The number of its first descriptor.
    pub head: u16,
    /// The ticket by which an answer names the chain; 0 for a faulty chain.
    pub ticket: u32,
    /// The first I/O address that is missing.
    pub miss_at: u64,
    /// How many are missing from there on.
    pub miss_len: u64,
    /// The number of the access that they are needed for.
    pub miss_access: u32,
}

impl FsPopResult {
    /// Neither a load nor a chain.
    pub fn nothing() -> FsPopResult
        ensures { result ≡ no_step }
    {
        FsPopResult {
            load_at: 0,
            load_len: 0,
            request_len: 0,
            reply_len: 0,
            fault: 0,
            head: 0,
            ticket: 0,
            miss_at: 0,
            miss_len: 0,
            miss_access: 0,
        }
    }
}

/// The host address of a window: the number of its region, and the offset in it.
pub fn host_at(window: &VolatileSlice) -> usize
    ensures { result ≡ host_at window.now }
{
    window.block().wrapping_add(window.block_offset())
}

// The load that a pop still needs, if any.
fn still_wanted(handle: &ChainHandle, step: &mut FsPopResult)
    ensures filled { FillsWanted handle.now step.new }
    ensures few { step.new.load_len ≤ 4096 }
{
    *step = FsPopResult::nothing();
    match handle.still_wanted() {
        Some(window) => {
            step.load_at = host_at(&window);
            step.load_len = window.len();
        }
        None => {}
    }
}

// The load that the pop still needs, and a status; nothing if its address isn't mapped.
fn fill_load(handle: &ChainHandle, step: &mut FsPopResult) -> u32
    ensures filled { FillsLoad handle.now step.new result }
    ensures few { step.new.load_len ≤ 4096 }
{
    *step = FsPopResult::nothing();
    match handle.still_wanted() {
        Some(window) => {
            step.load_at = host_at(&window);
            step.load_len = window.len();
            LOAD
        }
        None => NOT_MAPPED,
    }
}

// A pop's result, as C gets it.
#[inline(always)]
fn fill_outcome(handle: &ChainHandle, outcome: LoadOutcome, step: &mut FsPopResult) -> u32
    ensures filled { FillsOutcome handle.now outcome step.new result }
    ensures few { step.new.load_len ≤ 4096 }
{
    *step = FsPopResult::nothing();
    match outcome {
        LoadOutcome::Part | LoadOutcome::On(PopOutcome::Load(_)) => fill_load(handle, step),
        LoadOutcome::On(PopOutcome::Idle) => IDLE,
        LoadOutcome::On(PopOutcome::Refused(error)) => u32::from(error.number()),
        LoadOutcome::On(PopOutcome::Missing { range, access }) => {
            step.miss_at = range.base.0;
            step.miss_len = range.length as u64;
            step.miss_access = access_number(access);
            MISS
        }
        LoadOutcome::On(
            PopOutcome::Chain {
                head,
                request_len,
                room_len,
            },
        ) => {
            step.head = head;
            step.request_len = request_len as u64;
            step.reply_len = room_len as u64;
            step.ticket = handle.ticket();
            0
        }
        LoadOutcome::On(PopOutcome::Faulty { head, fault }) => {
            step.head = head;
            step.fault = u32::from(fault.number());
            0
        }
    }
}

/// Pops the next chain of a queue: at first without bytes, then with those of each load. Returns a status.
pub fn pop_handle(
    handle: &mut ChainHandle,
    queue: &mut FsQueue,
    loaded: &[u8],
    step: &mut FsPopResult,
) -> u32
    ensures pops { PopsHandle handle.old queue.old loaded.now step.new result handle.new queue.new }
    ensures few { step.new.load_len ≤ 4096 }
{
    let Some(mut checked) = queue.begun() else {
        *step = FsPopResult::nothing();
        return queue.unbegun();
    };
    match handle.pop(&mut checked, loaded) {
        Ok(outcome) => {
            queue.put(&checked);
            fill_outcome(handle, outcome, step)
        }
        Err(error) => {
            still_wanted(handle, step);
            u32::from(error.number())
        }
    }
}

/// Begins a pop, and goes on with loads that were made ahead, as long as each is the one that it asks for.
/// Returns a status.
pub fn pop_handle_ahead(
    handle: &mut ChainHandle,
    queue: &mut FsQueue,
    ahead: &[LoadAhead],
    bytes: &[u8],
    step: &mut FsPopResult,
) -> u32
    ensures pops { PopsHandleAhead handle.old queue.old (loads_ahead ahead.now bytes.now) step.new result
        handle.new queue.new }
    ensures few { step.new.load_len ≤ 4096 }
{
    let Some(mut checked) = queue.begun() else {
        *step = FsPopResult::nothing();
        return queue.unbegun();
    };
    match handle.pop_ahead(&mut checked, ahead, bytes) {
        Ok(outcome) => {
            queue.put(&checked);
            fill_outcome(handle, LoadOutcome::On(outcome), step)
        }
        Err(error) => {
            still_wanted(handle, step);
            u32::from(error.number())
        }
    }
}
