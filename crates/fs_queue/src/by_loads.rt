//! Walks by loads from host memory: of the available ring, and of the chain at a head.

ghost use Rattle.std.specs.Prelude.{◌≡◌, ℕ, ◌+◌, ◌*◌, ◌<◌, ◌≤◌, ◌^◌, IfOk, IfSome, IsTrue, OnOk, OnErr, Some};
ghost use Rattle.std.specs.Prelude.{None, if◌then◌else◌, length, take, drop};
ghost use Rattle.vm_iotlb.specs.declared.permissions.Permissions.TheVariants.{Read};
ghost use Rattle.vm_memory.specs.Memory.{bytes, reach};
ghost use Rattle.fs_queue.specs.Chain.{chain, first_visit};
ghost use Rattle.fs_queue.specs.Loads.{ahead_at};
ghost use Rattle.fs_queue.specs.SteppingView.{ahead_of, IfWants};
ghost use Rattle.fs_queue.specs.RingingView.{stage_of, HasResult, BeginsChain, IfRefuses};
ghost use Rattle.fs_queue.specs.NextAvail.{next_avail};
ghost use Rattle.fs_queue.specs.Taking.{stops_queue};
ghost use Rattle.fs_queue.specs.Windows.{IsLongChain};
ghost use Rattle.fs_queue.specs.WalkingView.{at_position, found_of, AllEndIn64Bits, AreTheRing, AreTheTable};
ghost use Rattle.fs_queue.specs.WalkingView.{EndsIn64Bits};

use crate::access::{read, whole_bytes};
use crate::chain_walk::{Progress, WalkEnd};
use crate::descriptor::Descriptors;
use crate::layout::QueueLayout;
use crate::walk::{IndexWalk, Walk};
use crate::walk_step::{DescriptorTable, ENTRY, queue_table};
use std::alloc::{AllocError, Global};
use vm_memory::GuestMemory;
use vm_memory_core::HostBlocks;

// Loads an entry of a table from host memory, None if it isn't mapped.
fn load_entry<M: GuestMemory, H: HostBlocks>(
    alloc: Global,
    host: &H,
    mem: &M,
    addr: u64,
) -> Option<[u8; 16]>
    requires fits { addr + 16 < 2 ^ 64 }
    requires held { M.IsHeld mem.now (H.host host.now) }
    ensures { let m = M.memory mem.now (H.host host.now) in
        result ≡ (if reach m Read addr 16 then Some (bytes m addr 16) else None) }
{
    let mut bytes = [0u8; 16];
    if read(alloc, host, mem, addr, &mut bytes) {
        Some(bytes)
    } else {
        None
    }
}

// The bytes of a table, if one window has all of them. With None, each entry is loaded by itself: it may
// be mapped or not.
#[inline(always)]
fn table_bytes<'a, M: GuestMemory, H: HostBlocks>(
    alloc: Global,
    host: &'a H,
    mem: &M,
    table: DescriptorTable,
) -> Option<&'a [u8]>
    requires held { M.IsHeld mem.now (H.host host.now) }
    requires ends { EndsIn64Bits table }
    ensures { IfSome result (λ b. AreTheTable (M.memory mem.now (H.host host.now)) table b.now) }
{
    whole_bytes(
        alloc,
        host,
        mem,
        table.address,
        ENTRY as usize * table.entries as usize,
    )
}

// The 16 bytes of a table's entry, from the table's bytes.
fn entry_of(bytes: &[u8], index: u16) -> [u8; 16]
    requires { 16 * index + 16 ≤ length bytes.now }
    ensures { result ≡ take 16 (drop (16 * index) bytes.now) }
{
    let mut entry = [0u8; 16];
    entry.copy_from_slice(&bytes[16 * usize::from(index)..][..16]);
    entry
}

// Loads an entry of a table, from the table's bytes if one window has them. None if it isn't mapped.
#[inline(always)]
fn load_from_table<M: GuestMemory, H: HostBlocks>(
    alloc: Global,
    host: &H,
    mem: &M,
    table: DescriptorTable,
    whole: Option<&[u8]>,
    index: u16,
) -> Option<[u8; 16]>
    requires held { M.IsHeld mem.now (H.host host.now) }
    requires ends { EndsIn64Bits table }
    requires index { index < table.entries }
    requires whole { IfSome whole (λ b. AreTheTable (M.memory mem.now (H.host host.now)) table b.now) }
    ensures { let m = M.memory mem.now (H.host host.now) in let a = table.address + 16 * index in
        result ≡ (if reach m Read a 16 then Some (bytes m a 16) else None) }
{
    match whole {
        Some(bytes) => Some(entry_of(bytes, index)),
        None => load_entry(alloc, host, mem, table.address + 16 * u64::from(index)),
    }
}

// The bytes of a table, if one window has them: `whole`, if the other table is the same one.
#[inline(always)]
fn bytes_of<'a, M: GuestMemory, H: HostBlocks>(
    alloc: Global,
    host: &'a H,
    mem: &M,
    table: DescriptorTable,
    other: DescriptorTable,
    whole: Option<&'a [u8]>,
) -> Option<&'a [u8]>
    requires held { M.IsHeld mem.now (H.host host.now) }
    requires ends { EndsIn64Bits table }
    requires whole { IfSome whole (λ b. AreTheTable (M.memory mem.now (H.host host.now)) other b.now) }
    ensures { IfSome result (λ b. AreTheTable (M.memory mem.now (H.host host.now)) table b.now) }
{
    if table == other {
        whole
    } else {
        table_bytes(alloc, host, mem, table)
    }
}

/// Walks the chain at a head, and puts its ordinary descriptors into the list in place of the former
/// ones. AllocError if the chain has more descriptors than the list has room for and the allocation
/// fails. The walk still continues, without keeping them, so a failed allocation hides no fault and no
/// stop.
#[inline(always)]
pub(crate) fn walk_chain<M: GuestMemory, H: HostBlocks>(
    alloc: Global,
    layout: QueueLayout,
    host: &H,
    mem: &M,
    head: u16,
    first: Progress,
    descriptors: &mut Descriptors,
) -> Result<WalkEnd, AllocError>
    requires held { M.IsHeld mem.now (H.host host.now) }
    requires at { ahead_of first ≡ ahead_at layout.size (first_visit (at_position layout 0) head) }
    requires size { IfWants first (λ w. w.size ≡ layout.size) }
    ensures chain { IfOk result (λ w. found_of w descriptors.new.items
        ≡ chain (M.memory mem.now (H.host host.now)) (at_position layout 0) head) }
    ensures fit { OnOk result (AllEndIn64Bits descriptors.new.items) }
    ensures memory { OnErr result (IsLongChain descriptors.old.capacity
        (chain (M.memory mem.now (H.host host.now)) (at_position layout 0) head)) }
{
    descriptors.clear();
    let mut kept = true;
    let mut whole_of = queue_table(layout);
    let mut whole = table_bytes(alloc, host, mem, whole_of);
    let mut progress = first;
    'steps: loop {
        match progress {
            Progress::Ends(walked) => return walked.if_held(kept),
            Progress::Wants(walk) => {
                let (table, index) = walk.entry();
                whole = bytes_of(alloc, host, mem, table, whole_of, whole);
                whole_of = table;
                let came = load_from_table(alloc, host, mem, table, whole, index);
                let given = walk.give(came);
                if let Some(descriptor) = given.joins {
                    match descriptors.push(descriptor) {
                        Ok(()) => {}
                        Err(_) => kept = false,
                    }
                }
                progress = given.then;
            }
        }
    }
}

// Two bytes of the available ring, from the ring's bytes.
fn pair_of(bytes: &[u8], offset: usize) -> [u8; 2]
    requires { offset + 2 ≤ length bytes.now }
    ensures { result ≡ take 2 (drop offset bytes.now) }
{
    let mut pair = [0u8; 2];
    pair.copy_from_slice(&bytes[offset..][..2]);
    pair
}

// Loads two bytes from host memory, None if they aren't mapped.
#[inline(always)]
fn load_pair<M: GuestMemory, H: HostBlocks>(
    alloc: Global,
    host: &H,
    mem: &M,
    addr: u64,
) -> Option<[u8; 2]>
    requires fits { addr + 2 < 2 ^ 64 }
    requires held { M.IsHeld mem.now (H.host host.now) }
    ensures { let m = M.memory mem.now (H.host host.now) in
        result ≡ (if reach m Read addr 2 then Some (bytes m addr 2) else None) }
{
    let mut pair = [0u8; 2];
    if read(alloc, host, mem, addr, &mut pair) {
        Some(pair)
    } else {
        None
    }
}

// The bytes of the available ring, flags, index and entries, if one window has them.
#[inline(always)]
fn ring_bytes<'a, M: GuestMemory, H: HostBlocks>(
    alloc: Global,
    layout: QueueLayout,
    host: &'a H,
    mem: &M,
) -> Option<&'a [u8]>
    requires { M.IsHeld mem.now (H.host host.now) }
    ensures { IfSome result (λ b. AreTheRing (M.memory mem.now (H.host host.now)) layout b.now) }
{
    let len = 4 + 2 * usize::from(layout.size());
    whole_bytes(alloc, host, mem, layout.avail(), len)
}

// Loads two bytes of the available ring, from its bytes if one window has them. None if they aren't
// mapped.
#[inline(always)]
fn load_from_ring<M: GuestMemory, H: HostBlocks>(
    alloc: Global,
    layout: QueueLayout,
    host: &H,
    mem: &M,
    ring: Option<&[u8]>,
    offset: u32,
) -> Option<[u8; 2]>
    requires held { M.IsHeld mem.now (H.host host.now) }
    requires inside { offset + 2 ≤ 4 + 2 * layout.size }
    requires ring { IfSome ring (λ b. AreTheRing (M.memory mem.now (H.host host.now)) layout b.now) }
    ensures { let m = M.memory mem.now (H.host host.now) in let a = layout.avail + offset in
        result ≡ (if reach m Read a 2 then Some (bytes m a 2) else None) }
{
    match ring {
        Some(bytes) => Some(pair_of(bytes, offset as usize)),
        None => load_pair(alloc, host, mem, layout.avail() + u64::from(offset)),
    }
}

/// The walk at a position of a queue that isn't stopped, after the loads of the available ring.
#[inline(always)]
pub(crate) fn walk_ring<M: GuestMemory, H: HostBlocks>(
    alloc: Global,
    layout: QueueLayout,
    position: u16,
    host: &H,
    mem: &M,
) -> Walk
    requires { M.IsHeld mem.now (H.host host.now) }
    ensures next { stage_of result
        ≡ HasResult (next_avail (M.memory mem.now (H.host host.now)) (at_position layout position)) }
    ensures chain { BeginsChain layout result }
    ensures stops { IfRefuses result (λ e. IsTrue (stops_queue e)) }
{
    let ring = ring_bytes(alloc, layout, host, mem);
    let index = load_from_ring(alloc, layout, host, mem, ring, 2);
    match IndexWalk::new(layout, position).give(index) {
        Walk::RingEntry(walk) => {
            let offset = layout.entry_offset(position);
            let entry = load_from_ring(alloc, layout, host, mem, ring, offset);
            walk.give(entry)
        }
        other => other,
    }
}
