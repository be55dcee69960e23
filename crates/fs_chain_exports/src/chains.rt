//! Exports for a chain, from its pop to its push. Each returns 0, or the number of a status.

ghost use Rattle.std.specs.Prelude.{◌≡◌, ◌≤◌, false, true};
ghost use Rattle.fs_chain_c.specs.Handles.{AbandonsChain, DropsChain, EndsPush, IsZeros, Numbers, Pushes};
ghost use Rattle.fs_chain_c.specs.Handles.{SetsMemory, ReportsStretches, Pops, PopsAheadOf};
ghost use Rattle.fs_regions.specs.Ahead.{loads_ahead};
ghost use Rattle.fs_chain_c.specs.States.{handle_state};
ghost use Rattle.fs_chain_c.specs.Ranges.{ReportsRanges};

use fs_chain_c::device::FsDevice;
use fs_chain_c::handle::FsChain;
use fs_chain_c::memory::FsRegion;
use fs_chain_c::popping::{FsPopResult, pop_handle, pop_handle_ahead};
use fs_chain_c::pushing::{FsStores, drop_handle_chain, end_handle_push, push_handle};
use fs_chain_c::queue::FsQueue;
use fs_chain_c::ranges::{FsRange, fill_ranges};
use fs_chain_c::setting::{number_handle, set_memory};
use fs_chain_c::status::wrong_order;
use fs_chain_c::windows::{FsWindow, report_windows};
use fs_regions::LoadAhead;
use std::alloc::Global;

/// The version of the interface (PK_VERSION): its major number by 65536, and its minor number.
const VERSION: u32 = 0x10000;

/// The version of the interface that the archive has.
#[unsafe(no_mangle)]
pub extern "C" fn pk_version() -> u32
    ensures { result ≡ 65536 }
{
    VERSION
}

/// Sets the memory of the chain's next pops, and the device's limit. A handle of zeros gets its box. C calls
/// pk_chain_set_memory, which then gives a new handle its first ticket (tools/pk_numbers.c).
#[unsafe(no_mangle)]
pub extern "C" fn pk_chain_set_memory_unnumbered(
    alloc: Global,
    chain: &mut FsChain,
    device: &FsDevice,
    regions: &[FsRegion],
) -> u32
    ensures { SetsMemory chain.old.held.value device.now regions.now result chain.new.held.value }
{
    set_memory(alloc, chain, device, regions)
}

/// Frees the memory that a handle owns, and makes the handle zeros. The queue of a chain in flight isn't
/// changed.
#[unsafe(no_mangle)]
pub extern "C" fn pk_chain_free(alloc: Global, chain: &mut FsChain)
    ensures { IsZeros chain.new }
{
    *chain = FsChain::empty(alloc);
}

/// Returns the number of the state of a handle's chain (PK_STATE_): 0 if its memory was never set.
#[unsafe(no_mangle)]
pub extern "C" fn pk_chain_state(chain: &FsChain) -> u32
    ensures { result ≡ handle_state chain.now.held.value }
{
    chain.state()
}

/// Sets the ticket of a handle's next chain.
#[unsafe(no_mangle)]
pub extern "C" fn pk_chain_set_ticket(alloc: Global, chain: &mut FsChain, first: u32) -> u32
    ensures { Numbers chain.old.held.value first result chain.new.held.value }
{
    let Some(mut handle) = chain.take(alloc) else {
        return wrong_order();
    };
    let status = number_handle(&mut handle, first);
    *chain = FsChain::of_box(handle);
    status
}

/// Pops the next chain of a queue: at first without bytes, then with those of each load.
#[unsafe(no_mangle)]
pub extern "C" fn pk_pop(
    alloc: Global,
    chain: &mut FsChain,
    queue: &mut FsQueue,
    loaded: &[u8],
    pop: &mut FsPopResult,
) -> u32
    ensures pops { Pops chain.old.held.value queue.old loaded.now result pop.new chain.new.held.value
        queue.new }
    ensures few { pop.new.load_len ≤ 4096 }
{
    let Some(mut handle) = chain.take(alloc) else {
        *pop = FsPopResult::nothing();
        return wrong_order();
    };
    let status = pop_handle(&mut handle, queue, loaded, pop);
    *chain = FsChain::of_box(handle);
    status
}

/// Pops the next chain of a queue in one call, by loads that were made ahead: each is taken only if it is
/// just the one that the pop asks for. At the first other one it asks for its load, as `pk_pop` does.
#[unsafe(no_mangle)]
pub extern "C" fn pk_pop_ahead(
    alloc: Global,
    chain: &mut FsChain,
    queue: &mut FsQueue,
    ahead: &[LoadAhead],
    bytes: &[u8],
    pop: &mut FsPopResult,
) -> u32
    ensures pops { PopsAheadOf chain.old.held.value queue.old (loads_ahead ahead.now bytes.now) result pop.new
        chain.new.held.value queue.new }
    ensures few { pop.new.load_len ≤ 4096 }
{
    let Some(mut handle) = chain.take(alloc) else {
        *pop = FsPopResult::nothing();
        return wrong_order();
    };
    let status = pop_handle_ahead(&mut handle, queue, ahead, bytes, pop);
    *chain = FsChain::of_box(handle);
    status
}

/// Frees a handle whose queue was reset: no queue is changed.
#[unsafe(no_mangle)]
pub extern "C" fn pk_abandon(alloc: Global, chain: &mut FsChain)
    ensures { AbandonsChain chain.old.held.value chain.new.held.value }
{
    let Some(mut handle) = chain.take(alloc) else {
        return;
    };
    handle.abandon();
    *chain = FsChain::of_box(handle);
}

/// Drops a chain that wasn't decoded: the queue's next pop returns it again. Ends a pop under way.
#[unsafe(no_mangle)]
pub extern "C" fn pk_drop(alloc: Global, chain: &mut FsChain, queue: &mut FsQueue) -> u32
    ensures { DropsChain chain.old.held.value queue.old result chain.new.held.value queue.new }
{
    let Some(mut handle) = chain.take(alloc) else {
        return 0;
    };
    let status = drop_handle_chain(&mut handle, queue);
    *chain = FsChain::of_box(handle);
    status
}

/// Fills the windows of a request's bytes from one on, at most so many; returns how many windows.
#[unsafe(no_mangle)]
pub extern "C" fn pk_request_windows(
    alloc: Global,
    chain: &mut FsChain,
    from: u64,
    len: u64,
    windows: &mut [FsWindow],
) -> usize
    ensures { ReportsStretches chain.old.held.value false from len windows.old result
        chain.new.held.value windows.new }
{
    report_windows(alloc, chain, false, from, len, windows)
}

/// Fills the windows of a reply buffer's bytes from one on, at most so many; returns how many windows.
#[unsafe(no_mangle)]
pub extern "C" fn pk_reply_windows(
    alloc: Global,
    chain: &mut FsChain,
    from: u64,
    len: u64,
    windows: &mut [FsWindow],
) -> usize
    ensures { ReportsStretches chain.old.held.value true from len windows.old result
        chain.new.held.value windows.new }
{
    report_windows(alloc, chain, true, from, len, windows)
}

/// The guest ranges of a reply buffer's bytes from one on, at most so many: returns how many ranges are
/// filled.
#[unsafe(no_mangle)]
pub extern "C" fn pk_reply_ranges(
    alloc: Global,
    chain: &mut FsChain,
    from: u64,
    len: u64,
    ranges: &mut [FsRange],
) -> usize
    ensures { ReportsRanges chain.old.held.value from len ranges.old result chain.new.held.value ranges.new }
{
    let Some(handle) = chain.take(alloc) else {
        return 0;
    };
    let count = fill_ranges(&handle, from, len, ranges);
    *chain = FsChain::of_box(handle);
    count
}

/// Returns the stores of a push, and writes the reply's front to a buffer. Until C reports them made, no
/// other chain of the queue is pushed.
#[unsafe(no_mangle)]
pub extern "C" fn pk_push(
    alloc: Global,
    chain: &mut FsChain,
    queue: &mut FsQueue,
    front: &mut [u8],
    stores: &mut FsStores,
) -> u32
    ensures { Pushes chain.old.held.value queue.old front.old result stores.new chain.new.held.value
        queue.new front.new }
{
    let Some(mut handle) = chain.take(alloc) else {
        *stores = FsStores::nothing();
        return wrong_order();
    };
    let status = push_handle(&mut handle, queue, front, stores);
    *chain = FsChain::of_box(handle);
    status
}

/// Ends a push whose stores are made, by the two bytes loaded at `seen_at`. The queue's next chain is pushed
/// at the next position. Returns whether to notify the driver.
#[unsafe(no_mangle)]
pub extern "C" fn pk_pushed(
    alloc: Global,
    chain: &mut FsChain,
    queue: &mut FsQueue,
    seen: u16,
    notify: &mut u8,
) -> u32
    ensures { EndsPush chain.old.held.value queue.old seen result notify.new chain.new.held.value queue.new }
{
    let Some(mut handle) = chain.take(alloc) else {
        *notify = 0;
        return wrong_order();
    };
    let (returned, status) = end_handle_push(&mut handle, queue, seen);
    *notify = returned;
    *chain = FsChain::of_box(handle);
    status
}
