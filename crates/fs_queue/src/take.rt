//! The windows of a chain that is popped: of its request, its room and its return (VIRTIO 1.2, 2.7.5 to
//! 2.7.8).

ghost use Rattle.std.specs.Prelude.{ℕ, ◌≡◌, ◌+◌, ◌<◌, ◌≤◌, ◌^◌, ◌++◌, ◌&&◌, List, []};
ghost use Rattle.std.specs.Prelude.{false, true, not, is_some, None, Some, Ok, if◌then◌else◌};
ghost use Rattle.std.specs.Prelude.{IfErr, IfNone, IfOk, IfSome, IsTrue, OnErr};
ghost use Rattle.vm_iotlb.specs.declared.permissions.Permissions.TheVariants.{Read, Write};
ghost use Rattle.vm_memory_core.specs.Host.{lengths};
ghost use Rattle.vm_memory_core.specs.Window.{places, AllLieIn};
ghost use Rattle.vm_memory.specs.Memory.{addresses, after, located, location};
ghost use Rattle.fs_queue.specs.WalkingView.{AllEndIn64Bits, at_position};
ghost use Rattle.fs_queue.specs.Taking.{request_and_room, chain_fault, stops_queue, all_reach, of_direction};
ghost use Rattle.fs_queue.specs.Taking.{access_of, addresses_of};
ghost use Rattle.fs_queue.specs.Windows.{used_addresses, return_places_of};
ghost use Rattle.fs_queue.specs.Windows.{missing_of, return_places_at, room_places, ReturnWindowsLieIn};
ghost use Rattle.fs_queue.specs.Windows.{ChainLiesIn, TakenLiesIn};
ghost use Rattle.fs_queue.specs.Windows.{HoldsChain, HoldsWindows, HasItsWindows, HasNoReturnWindows};
ghost use Rattle.fs_queue.specs.Windows.{HasNoWindows, IsEmpty, Takes, taken_if, unless_faulty};
ghost use Rattle.fs_queue.specs.Windows.{HoldsFound, KeepsLimit, RefusesFound, RefusesHeld};
ghost use Rattle.fs_queue.specs.Chain.{IsChain, chain, first_visit};
ghost use Rattle.fs_queue.specs.Loads.{ahead_at};
ghost use Rattle.fs_queue.specs.SteppingView.{ahead_of, IfWants};

use crate::access::add_windows;
use crate::address_map::{HostAddressMap, access_of, chain_fault, count_bytes, return_fault};
use crate::by_loads::{walk_chain, walk_ring};
use crate::chain::{Chain, ReturnWindows, Taken};
use crate::chain_walk::{Progress, WalkEnd};
use crate::descriptor::{Descriptor, Descriptors};
use crate::fault::{ChainFault, QueueError};
use crate::layout::QueueLayout;
use crate::walk::Walk;
use std::alloc::{AllocError, Global};
use vm_memory::GuestMemory;
use vm_memory_core::{HostBlocks, Permissions, Windows};

// Adds to an empty list the windows that a return at this position writes besides the room. They are of
// the used element, 8 bytes, then of the used index, 2 bytes. False if one of their addresses isn't
// mapped.
#[inline(always)]
fn add_used<M: GuestMemory, H: HostBlocks>(
    alloc: Global,
    layout: QueueLayout,
    host: &H,
    mem: &M,
    position: u16,
    windows: &mut Windows,
) -> Result<bool, AllocError>
    requires held { M.IsHeld mem.now (H.host host.now) }
    requires none { windows.old.items ≡ [] }
    ensures found { IfOk result (λ found. located (location (M.memory mem.now (H.host host.now)) Write)
        (used_addresses (at_position layout position))
        ≡ (if found then Some (places windows.new.items) else None)) }
    ensures lie { AllLieIn (lengths (H.host host.now)) windows.new.items }
{
    let element = layout.used_element_at(position);
    if !add_windows(alloc, host, mem, element, 8, Permissions::Write, windows)? {
        return Ok(false);
    }
    let index = layout.used_index_at();
    add_windows(alloc, host, mem, index, 2, Permissions::Write, windows)
}

// Adds to empty lists the windows of a return, or returns the refusal if one of their addresses isn't
// mapped. The lists may keep the windows before it then.
#[inline(always)]
fn add_used_and_flags<M: GuestMemory, H: HostBlocks>(
    alloc: Global,
    layout: QueueLayout,
    host: &H,
    mem: &M,
    position: u16,
    windows: &mut ReturnWindows,
) -> Result<Option<QueueError>, AllocError>
    requires held { M.IsHeld mem.now (H.host host.now) }
    requires none { HasNoReturnWindows windows.old }
    ensures places { let m = M.memory mem.now (H.host host.now) in
        IfOk result (λ missing. return_places_of missing windows.new
        ≡ return_places_at m (at_position layout position)) }
    ensures lie { IfOk result
        (λ missing. IfNone missing (ReturnWindowsLieIn (lengths (H.host host.now)) windows.new)) }
    ensures stops { IfOk result (λ missing. IfSome missing (λ e. IsTrue (stops_queue e))) }
{
    if !add_used(alloc, layout, host, mem, position, &mut windows.used)? {
        return Ok(Some(QueueError::UsedUnreachable));
    }
    let flags = layout.avail();
    if !add_windows(
        alloc,
        host,
        mem,
        flags,
        2,
        Permissions::Read,
        &mut windows.flags,
    )? {
        return Ok(Some(QueueError::AvailFlagsUnreachable));
    }
    Ok(None)
}

// The refusal if a return at this position has an address that isn't mapped. It makes no list.
#[tactic(auto, using(crate::proofs::OfferLemmas::missing_reached))]
fn missing_in_return<M: GuestMemory, H: HostBlocks>(
    alloc: Global,
    layout: QueueLayout,
    host: &H,
    mem: &M,
    position: u16,
) -> Option<QueueError>
    ensures missing { result
        ≡ missing_of (return_places_at (M.memory mem.now (H.host host.now)) (at_position layout position)) }
    ensures stops { IfSome result (λ e. IsTrue (stops_queue e)) }
{
    return_fault(&HostAddressMap { alloc, host, mem }, layout, position)
}

/// Adds to empty lists the windows of a return at this position besides the room. Some if one of their
/// addresses isn't mapped: `UsedUnreachable`, then `AvailFlagsUnreachable`. AllocError if all are
/// mapped, but an allocation fails. The lists stay empty with both. `Queue::take` calls it between the
/// loads of the ring and the chain's walk.
#[inline(always)]
pub fn add_return_windows<M: GuestMemory, H: HostBlocks>(
    alloc: Global,
    layout: QueueLayout,
    host: &H,
    mem: &M,
    position: u16,
    windows: &mut ReturnWindows,
) -> Result<Option<QueueError>, AllocError>
    requires held { M.IsHeld mem.now (H.host host.now) }
    requires none { HasNoReturnWindows windows.old }
    ensures places { let m = M.memory mem.now (H.host host.now) in
        IfOk result (λ missing. return_places_of missing windows.new
        ≡ return_places_at m (at_position layout position)) }
    ensures lie { IfOk result
        (λ missing. IfNone missing (ReturnWindowsLieIn (lengths (H.host host.now)) windows.new)) }
    ensures stops { IfOk result (λ missing. IfSome missing (λ e. IsTrue (stops_queue e))) }
    ensures missing_is_empty { IfOk result (λ missing. IfSome missing (λ e. HasNoReturnWindows windows.new)) }
    ensures failed_is_empty { OnErr result (HasNoReturnWindows windows.new) }
    ensures memory { OnErr result (missing_of (return_places_at (M.memory mem.now (H.host host.now))
        (at_position layout position)) ≡ None) }
{
    match add_used_and_flags(alloc, layout, host, mem, position, windows) {
        Ok(None) => Ok(None),
        Ok(Some(missing)) => {
            windows.clear();
            Ok(Some(missing))
        }
        Err(error) => {
            windows.clear();
            match missing_in_return(alloc, layout, host, mem, position) {
                Some(missing) => Ok(Some(missing)),
                None => Err(error),
            }
        }
    }
}

// The `len` addresses from `start` on.
#[derive(Clone, Copy, Debug)]
struct AddressRange {
    start: u64,
    len: usize,
}

// Adds a descriptor's addresses to a range that they continue. Else adds the range's windows to the
// list, and the range becomes the descriptor's addresses. False if one of the former range's addresses
// isn't mapped.
#[inline(always)]
fn extend_range<M: GuestMemory, H: HostBlocks>(
    alloc: Global,
    host: &H,
    mem: &M,
    access: Permissions,
    descriptor: Descriptor,
    range: &mut AddressRange,
    windows: &mut Windows,
) -> Result<bool, AllocError>
    requires range { range.old.start + range.old.len < 2 ^ 64 }
    requires descriptor { descriptor.addr + descriptor.len < 2 ^ 64 }
    requires held { M.IsHeld mem.now (H.host host.now) }
    ensures found { (rest : List ℕ) → let f = location (M.memory mem.now (H.host host.now)) access in
        IfOk result (λ found.
        after (places windows.old.items) (located f
        (addresses range.old.start range.old.len ++ (addresses descriptor.addr descriptor.len ++ rest)))
        ≡ (if found then after (places windows.new.items)
        (located f (addresses range.new.start range.new.len ++ rest)) else None)) }
    ensures range { range.new.start + range.new.len < 2 ^ 64 }
    ensures lie { AllLieIn (lengths (H.host host.now)) windows.old.items
        → AllLieIn (lengths (H.host host.now)) windows.new.items }
{
    let len = descriptor.len as usize;
    if range.start + range.len as u64 == descriptor.addr {
        range.len += len;
        return Ok(true);
    }
    let found = add_windows(alloc, host, mem, range.start, range.len, access, windows)?;
    range.start = descriptor.addr;
    range.len = len;
    Ok(found)
}

// Adds to an empty list the windows of the descriptors of one direction, in their order. False if one of
// their addresses isn't mapped. Descriptors with consecutive addresses are looked up together, so they
// share a window if one has them all.
#[inline(always)]
fn add_direction<M: GuestMemory, H: HostBlocks>(
    alloc: Global,
    host: &H,
    mem: &M,
    descriptors: &[Descriptor],
    write_only: bool,
    windows: &mut Windows,
) -> Result<bool, AllocError>
    requires fits { AllEndIn64Bits descriptors.now }
    requires held { M.IsHeld mem.now (H.host host.now) }
    requires none { windows.old.items ≡ [] }
    ensures found { let m = M.memory mem.now (H.host host.now) in
        IfOk result (λ found. located (location m (access_of write_only))
        (addresses_of (of_direction write_only descriptors.now))
        ≡ (if found then Some (places windows.new.items) else None)) }
    ensures lie { IfOk result (λ found. IsTrue found
        → AllLieIn (lengths (H.host host.now)) windows.new.items) }
{
    let access = access_of(write_only);
    let mut range = AddressRange { start: 0, len: 0 };
    for descriptor in descriptors {
        if descriptor.is_write_only() == write_only
            && !extend_range(alloc, host, mem, access, *descriptor, &mut range, windows)?
        {
            return Ok(false);
        }
    }
    add_windows(alloc, host, mem, range.start, range.len, access, windows)
}

// Adds to two empty lists the windows of a request and of its room. False if one of their addresses
// isn't mapped. AllocError if an allocation fails.
#[inline(always)]
fn add_chain<M: GuestMemory, H: HostBlocks>(
    alloc: Global,
    host: &H,
    mem: &M,
    descriptors: &[Descriptor],
    readable: &mut Windows,
    writable: &mut Windows,
) -> Result<bool, AllocError>
    requires fits { AllEndIn64Bits descriptors.now }
    requires held { M.IsHeld mem.now (H.host host.now) }
    requires no_readable { readable.old.items ≡ [] }
    requires no_writable { writable.old.items ≡ [] }
    ensures found { let m = M.memory mem.now (H.host host.now) in
        IfOk result (λ found. found ≡
        (all_reach m Read (of_direction false descriptors.now)
        && all_reach m Write (of_direction true descriptors.now))) }
    ensures readable { let m = M.memory mem.now (H.host host.now) in
        IfOk result (λ found. IsTrue found
        → located (location m Read) (addresses_of (of_direction false descriptors.now))
        ≡ Some (places readable.new.items)) }
    ensures writable { let m = M.memory mem.now (H.host host.now) in
        IfOk result (λ found. IsTrue found
        → located (location m Write) (addresses_of (of_direction true descriptors.now))
        ≡ Some (places writable.new.items)) }
    ensures readable_lie { IfOk result (λ found. IsTrue found
        → AllLieIn (lengths (H.host host.now)) readable.new.items) }
    ensures writable_lie { IfOk result (λ found. IsTrue found
        → AllLieIn (lengths (H.host host.now)) writable.new.items) }
{
    if !add_direction(alloc, host, mem, descriptors, false, readable)? {
        return Ok(false);
    }
    if !add_direction(alloc, host, mem, descriptors, true, writable)? {
        return Ok(false);
    }
    Ok(true)
}

// Fills a chain that has no windows. False if it has a fault: more bytes than the limit, or an address
// that isn't mapped. AllocError if it keeps the limit, but an allocation fails. With both it still has
// no windows.
#[inline(always)]
fn fill_chain<M: GuestMemory, H: HostBlocks>(
    alloc: Global,
    host: &H,
    mem: &M,
    head: u16,
    descriptors: &[Descriptor],
    limit: u32,
    chain: &mut Chain,
) -> Result<bool, AllocError>
    requires fits { AllEndIn64Bits descriptors.now }
    requires held { M.IsHeld mem.now (H.host host.now) }
    requires no_windows { HasNoWindows chain.old }
    ensures filled { IfOk result (λ filled. filled
        ≡ not (is_some (chain_fault (M.memory mem.now (H.host host.now)) limit descriptors.now))) }
    ensures windows { IfOk result (λ filled. IsTrue filled
        → HoldsWindows (M.memory mem.now (H.host host.now)) head (Ok chain.new) (IsChain descriptors.now)) }
    ensures lie { IfOk result (λ filled. IsTrue filled
        → ChainLiesIn (lengths (H.host host.now)) (Ok chain.new)) }
    ensures faulty_is_empty { IfOk result (λ filled. filled ≡ false → HasNoWindows chain.new) }
    ensures failed_is_empty { OnErr result (HasNoWindows chain.new) }
    ensures memory { OnErr result (KeepsLimit limit descriptors.now) }
{
    let request_len = count_bytes(descriptors, false);
    let room_len = count_bytes(descriptors, true);
    if request_len > u64::from(limit) || room_len > u64::from(limit) {
        return Ok(false);
    }
    match add_chain(
        alloc,
        host,
        mem,
        descriptors,
        &mut chain.readable,
        &mut chain.writable,
    ) {
        Ok(true) => {
            chain.head = head;
            chain.request_len = request_len as usize;
            chain.room_len = room_len as usize;
            Ok(true)
        }
        Ok(false) => {
            chain.readable.clear();
            chain.writable.clear();
            Ok(false)
        }
        Err(error) => {
            chain.readable.clear();
            chain.writable.clear();
            Err(error)
        }
    }
}

/// Makes the windows of the request and the room of walked descriptors. Some if the chain has a fault:
/// `OverLimit` if one of them has more than `limit` bytes, then `RequestUnreachable`, then
/// `RoomUnreachable`. AllocError if neither has more, but an allocation fails. With a fault or an error
/// the chain has no windows. `Queue::take` calls it with the descriptors that joined its walk.
#[inline(always)]
pub fn hold_chain<M: GuestMemory, H: HostBlocks>(
    alloc: Global,
    host: &H,
    mem: &M,
    head: u16,
    descriptors: &[Descriptor],
    limit: u32,
    chain: &mut Chain,
) -> Result<Option<ChainFault>, AllocError>
    requires fits { AllEndIn64Bits descriptors.now }
    requires held { M.IsHeld mem.now (H.host host.now) }
    ensures fetched { let m = M.memory mem.now (H.host host.now) in
        IfOk result
        (λ fault. HoldsChain m (request_and_room m limit descriptors.now) (unless_faulty fault chain.new)) }
    ensures lie { IfOk result
        (λ fault. ChainLiesIn (lengths (H.host host.now)) (unless_faulty fault chain.new)) }
    ensures windows { IfOk result (λ fault. HoldsWindows (M.memory mem.now (H.host host.now)) head
        (unless_faulty fault chain.new) (IsChain descriptors.now)) }
    ensures short { IfOk result (λ fault. room_places (unless_faulty fault chain.new) ≤ limit) }
    ensures faulty_is_empty { IfOk result (λ fault. IfSome fault (λ why. HasNoWindows chain.new)) }
    ensures failed_is_empty { OnErr result (HasNoWindows chain.new) }
    ensures memory { OnErr result (KeepsLimit limit descriptors.now) }
{
    chain.clear();
    if fill_chain(alloc, host, mem, head, descriptors, limit, chain)? {
        return Ok(None);
    }
    Ok(chain_fault(&HostAddressMap { alloc, host, mem }, limit, descriptors))
}

// Walks the chain at a head, and makes the windows of its request and its room, or returns its fault.
// Errors: `DescriptorUnreachable`, `OutOfMemory`. A failed allocation hides no fault of the walk itself.
#[inline(always)]
fn walk_and_hold<M: GuestMemory, H: HostBlocks>(
    alloc: Global,
    layout: QueueLayout,
    host: &H,
    mem: &M,
    head: u16,
    first: Progress,
    limit: u32,
    descriptors: &mut Descriptors,
    kept: &mut Chain,
) -> Result<Option<ChainFault>, QueueError>
    requires held { M.IsHeld mem.now (H.host host.now) }
    requires at { ahead_of first ≡ ahead_at layout.size (first_visit (at_position layout 0) head) }
    requires size { IfWants first (λ w. w.size ≡ layout.size) }
    ensures fetched { let m = M.memory mem.now (H.host host.now) in
        IfOk result
        (λ fault. HoldsFound m limit (chain m (at_position layout 0) head)
        (unless_faulty fault kept.new)) }
    ensures refused { let m = M.memory mem.now (H.host host.now) in
        IfErr result (RefusesHeld limit descriptors.old.capacity (chain m (at_position layout 0) head)) }
    ensures windows { let m = M.memory mem.now (H.host host.now) in
        IfOk result
        (λ fault. HoldsWindows m head (unless_faulty fault kept.new)
        (chain m (at_position layout 0) head)) }
    ensures lie { IfOk result
        (λ fault. ChainLiesIn (lengths (H.host host.now)) (unless_faulty fault kept.new)) }
    ensures short { IfOk result (λ fault. room_places (unless_faulty fault kept.new) ≤ limit) }
{
    match walk_chain(alloc, layout, host, mem, head, first, descriptors) {
        Ok(WalkEnd::Chain) => {}
        Ok(WalkEnd::Faulty(fault)) => return Ok(Some(fault)),
        Ok(WalkEnd::Stopped) => return Err(QueueError::DescriptorUnreachable),
        Err(_) => return Err(QueueError::OutOfMemory),
    }
    match hold_chain(alloc, host, mem, head, descriptors, limit, kept) {
        Ok(fault) => Ok(fault),
        Err(_) => Err(QueueError::OutOfMemory),
    }
}

// The refusal if the windows of a return can't be allocated: `DescriptorUnreachable` if the chain's walk
// stops the queue, else `OutOfMemory`.
fn refusal_without_return<M: GuestMemory, H: HostBlocks>(
    alloc: Global,
    layout: QueueLayout,
    host: &H,
    mem: &M,
    head: u16,
    first: Progress,
    descriptors: &mut Descriptors,
) -> QueueError
    requires held { M.IsHeld mem.now (H.host host.now) }
    requires at { ahead_of first ≡ ahead_at layout.size (first_visit (at_position layout 0) head) }
    requires size { IfWants first (λ w. w.size ≡ layout.size) }
    ensures { RefusesFound (chain (M.memory mem.now (H.host host.now)) (at_position layout 0) head) result }
{
    match walk_chain(alloc, layout, host, mem, head, first, descriptors) {
        Ok(WalkEnd::Stopped) => QueueError::DescriptorUnreachable,
        Ok(WalkEnd::Chain | WalkEnd::Faulty(_)) | Err(_) => QueueError::OutOfMemory,
    }
}

/// Pops the chain at a position of a queue that isn't stopped into an empty `Taken`. False if no chain
/// is available. The errors are those of `Queue::take` but `Stopped`, in the same order.
#[inline(always)]
pub(crate) fn take_into<M: GuestMemory, H: HostBlocks>(
    alloc: Global,
    layout: QueueLayout,
    position: u16,
    host: &H,
    mem: &M,
    limit: u32,
    taken: &mut Taken,
) -> Result<bool, QueueError>
    requires held { M.IsHeld mem.now (H.host host.now) }
    requires empty { IsEmpty taken.old }
    ensures takes { Takes (M.memory mem.now (H.host host.now)) limit (at_position layout position)
        (taken_if taken.new result) }
    ensures lie { IfOk (taken_if taken.new result) (λ o. IfSome o (TakenLiesIn (lengths (H.host host.now)))) }
    ensures windows { IfOk (taken_if taken.new result)
        (λ o. IfSome o (HasItsWindows (M.memory mem.now (H.host host.now)) (at_position layout position))) }
    ensures short { IfOk (taken_if taken.new result) (λ o. IfSome o (λ t. room_places t.chain ≤ limit)) }
    ensures idle { IfOk result (λ waits. waits ≡ false → IsEmpty taken.new) }
{
    let (head, first) = match walk_ring(alloc, layout, position, host, mem) {
        Walk::Idle => return Ok(false),
        Walk::Refused(error) => return Err(error),
        Walk::Chain(head, first) => (head, first),
        Walk::Index(_) | Walk::RingEntry(_) => unreachable!(),
    };
    match add_return_windows(
        alloc,
        layout,
        host,
        mem,
        position,
        &mut taken.return_windows,
    ) {
        Ok(None) => {}
        Ok(Some(error)) => return Err(error),
        Err(_) => {
            let descriptors = &mut taken.descriptors;
            return Err(refusal_without_return(alloc, layout, host, mem, head, first, descriptors));
        }
    }
    match walk_and_hold(
        alloc,
        layout,
        host,
        mem,
        head,
        first,
        limit,
        &mut taken.descriptors,
        &mut taken.chain,
    ) {
        Ok(fault) => {
            taken.head = head;
            taken.fault = fault;
            Ok(true)
        }
        Err(error) => Err(error),
    }
}
