//! Reads and windows of a whole range of guest memory.

ghost use Rattle.std.specs.Prelude.{◌≡◌, ◌+◌, ◌<◌, ◌^◌, IsTrue, IfOk, IfSome};
ghost use Rattle.std.specs.Prelude.{length, Some, None, if◌then◌else◌};
ghost use Rattle.std.specs.Int.{w16, from_le_bytes};
ghost use Rattle.vm_iotlb.specs.declared.permissions.Permissions.TheVariants.{Read};
ghost use Rattle.vm_memory_core.specs.Host.{lengths};
ghost use Rattle.vm_memory_core.specs.Window.{places, AllLieIn};
ghost use Rattle.vm_memory.specs.Memory.{addresses, after, bytes, located, location, number, reach};
ghost use Rattle.fs_queue.specs.WalkingView.{AreTheBytes};

use std::alloc::{AllocError, Global};
use vm_memory::GuestMemory;
use vm_memory_core::{GuestAddress, HostBlocks, Permissions, Windows};
use vm_values::{ByteValued, Le16};

/// Fills a buffer with the bytes from an address on. False if one of the addresses isn't mapped. A
/// translation allocates only if it fails, so a failed allocation is false too.
#[inline(always)]
pub(crate) fn read<M: GuestMemory, H: HostBlocks>(
    alloc: Global,
    host: &H,
    mem: &M,
    addr: u64,
    buffer: &mut [u8],
) -> bool
    requires fits { addr + length buffer.old < 2 ^ 64 }
    requires held { M.IsHeld mem.now (H.host host.now) }
    ensures found { result ≡ reach (M.memory mem.now (H.host host.now)) Read addr (length buffer.old) }
    ensures bytes { IsTrue result
        → buffer.new ≡ bytes (M.memory mem.now (H.host host.now)) addr (length buffer.old) }
{
    match mem.read_range(alloc, host, GuestAddress(addr), buffer) {
        Ok(found) => found,
        Err(_) => false,
    }
}

/// Whether each of the `len` addresses from `addr` on is mapped for an access.
pub(crate) fn reaches<M: GuestMemory, H: HostBlocks>(
    alloc: Global,
    host: &H,
    mem: &M,
    addr: u64,
    len: usize,
    access: Permissions,
) -> bool
    requires fits { addr + len < 2 ^ 64 }
    ensures { result ≡ reach (M.memory mem.now (H.host host.now)) access addr len }
{
    match mem.check_range(alloc, host, GuestAddress(addr), len, access) {
        Ok(found) => found,
        Err(_) => false,
    }
}

// The number of two bytes, le16.
#[tactic(auto, using(crate::proofs::ReadLemmas::spelled_number))]
pub(crate) fn le16_number(bytes: &[u8; 2]) -> u16
    ensures { result ≡ from_le_bytes w16 bytes.now }
{
    Le16::get_bytes(bytes).to_native()
}

/// The bytes of the `len` addresses from `addr` on, if one window has all of them. With None the caller
/// has to read parts of the range one by one: they may be mapped or not.
#[inline(always)]
pub(crate) fn whole_bytes<'a, M: GuestMemory, H: HostBlocks>(
    alloc: Global,
    host: &'a H,
    mem: &M,
    addr: u64,
    len: usize,
) -> Option<&'a [u8]>
    requires fits { addr + len < 2 ^ 64 }
    requires held { M.IsHeld mem.now (H.host host.now) }
    ensures { IfSome result (λ b. AreTheBytes (M.memory mem.now (H.host host.now)) addr len b.now) }
{
    let start = GuestAddress(addr);
    let Ok(mut windows) = mem.get_slices(alloc, host, start, len, Permissions::Read) else {
        return None;
    };
    match windows.next() {
        Some(Ok(window)) if window.len() == len && host.has(&window) => Some(host.bytes(window)),
        _ => None,
    }
}

/// Adds the windows of the `len` addresses from `addr` on, for an access. False if one of them isn't
/// mapped. AllocError if an allocation fails.
#[inline(always)]
pub(crate) fn add_windows<M: GuestMemory, H: HostBlocks>(
    alloc: Global,
    host: &H,
    mem: &M,
    addr: u64,
    len: usize,
    access: Permissions,
    windows: &mut Windows,
) -> Result<bool, AllocError>
    requires fits { addr + len < 2 ^ 64 }
    requires held { M.IsHeld mem.now (H.host host.now) }
    ensures found { let m = M.memory mem.now (H.host host.now) in
        IfOk result
        (λ found. after (places windows.old.items) (located (location m access) (addresses addr len))
        ≡ (if found then Some (places windows.new.items) else None)) }
    ensures lie { AllLieIn (lengths (H.host host.now)) windows.old.items
        → AllLieIn (lengths (H.host host.now)) windows.new.items }
{
    // Don't translate an address without bytes.
    if len == 0 {
        return Ok(true);
    }
    mem.push_windows(alloc, host, GuestAddress(addr), len, access, windows)
}
