//! Checks, reads, writes and windows of I/O addresses that are mapped throughout.

ghost use Rattle.std.specs.Prelude.{◌≡◌, ◌+◌, ◌<◌, ◌≤◌, ◌^◌, ℕ, List, None, IfSome, OnErr, length, min, true};
ghost use Rattle.vm_iotlb.specs.AddressRuns.{may_all};
ghost use Rattle.vm_iotlb.specs.declared.permissions.Permissions.TheVariants.{Read, Write};
ghost use Rattle.vm_memory_core.specs.Host.{lengths, shape};
ghost use Rattle.vm_memory_core.specs.Window.{LiesIn, Stores};
ghost use Rattle.vm_memory.specs.Bytes.{places_at};
ghost use Rattle.vm_memory.specs.Layout.{AreHeld};
ghost use Rattle.vm_memory.specs.Memory.{circular, io_location, io_memory, located, reached, read_first};
ghost use Rattle.vm_memory.specs.Memory.{table_in};
ghost use Rattle.vm_memory.specs.Slices.{AddsLongest, IsWindowAt, Joins, StayIn};
ghost use Rattle.vm_memory.specs.Translated.{AreMappedTo, translated_left};

use crate::backend::GuestMemoryBackend;
use crate::translated::{PiecesLeft, translated_window};
use std::alloc::AllocError;
use vm_memory_core::{
    HostBlocks, HostMemory, IotlbIterator, NewBitmap, Permissions, VolatileSlice, Windows, put_at,
};

// The longest window from an I/O address on, of at most `most` bytes. None if the address has no place.
#[inline]
pub(crate) fn io_window<M: GuestMemoryBackend, B: NewBitmap>(
    backend: &M,
    h: &HostMemory<B>,
    table: usize,
    set: usize,
    access: Permissions,
    addr: u64,
    most: usize,
) -> Option<VolatileSlice>
    requires { (0 < most)
        × (addr + most < 2 ^ 64)
        × (may_all (table_in h.now table) access addr most ≡ true) }
    ensures none { result ≡ None → io_location h.now (M.layout backend.now) table set access addr ≡ None }
    ensures some { IfSome result
        (IsWindowAt (io_location h.now (M.layout backend.now) table set access) addr most) }
    ensures longest { IfSome result
        (λ w. w.len ≡ min most (translated_left (M.layout backend.now) (table_in h.now table) addr)) }
    ensures held { (lengths : List ℕ)
        → AreHeld lengths (M.layout backend.now)
        → IfSome result (LiesIn lengths) }
{
    let Some(table) = h.table(table) else {
        return None;
    };
    translated_window(backend, table, set, access, addr, most)
}

// The number of the `len` addresses from `addr` on before the first without a place.
pub(crate) fn io_reached<M: GuestMemoryBackend, H: HostBlocks>(
    backend: &M,
    h: &H,
    table: usize,
    set: usize,
    access: Permissions,
    addr: u64,
    len: usize,
    mapped: IotlbIterator<'_>,
) -> usize
    requires { AreMappedTo (table_in (H.host h.now) table) access addr len mapped }
    ensures { result ≡ reached (io_location (H.host h.now) (M.layout backend.now) table set access)
        (circular addr len) }
{
    let _ = h;
    let _ = table;
    let _ = access;
    let mut left = PiecesLeft::new(mapped);
    let mut done = 0;
    while done < len {
        let Some(window) = left.next_window(backend, set, addr + done as u64) else {
            return done;
        };
        done += window.len();
    }
    done
}

// Adds the windows of the `len` addresses from `addr` on. False if one of them has no place.
pub(crate) fn push_io<M: GuestMemoryBackend, H: HostBlocks>(
    backend: &M,
    h: &H,
    table: usize,
    set: usize,
    access: Permissions,
    addr: u64,
    len: usize,
    mapped: IotlbIterator<'_>,
    windows: &mut Windows,
) -> Result<bool, AllocError>
    requires { AreMappedTo (table_in (H.host h.now) table) access addr len mapped }
    ensures found { let found = located (io_location (H.host h.now) (M.layout backend.now) table set access)
        (circular addr len) in
        Joins windows.old.items windows.new.items found result }
    ensures longest { let longest = translated_left (M.layout backend.now) (table_in (H.host h.now) table) in
        AddsLongest longest (circular addr len) windows.old.items windows.new.items }
    ensures held { (lengths : List ℕ)
        → AreHeld lengths (M.layout backend.now)
        → StayIn lengths windows.old.items windows.new.items }
    ensures lacking { OnErr result (windows.old.capacity ≤ length windows.new.items) }
{
    let _ = h;
    let _ = table;
    let _ = access;
    let mut left = PiecesLeft::new(mapped);
    let mut done = 0;
    while done < len {
        let Some(window) = left.next_window(backend, set, addr + done as u64) else {
            return Ok(false);
        };
        windows.push(window)?;
        done += window.len();
    }
    Ok(true)
}

// Reads bytes from an address on, up to the first without a place, and returns their number.
pub(crate) fn read_io<M: GuestMemoryBackend, H: HostBlocks>(
    backend: &M,
    h: &H,
    table: usize,
    set: usize,
    buffer: &mut [u8],
    addr: u64,
    mapped: IotlbIterator<'_>,
) -> usize
    requires held { AreHeld (lengths (H.host h.now)) (M.layout backend.now) }
    requires mapped { AreMappedTo (table_in (H.host h.now) table) Read addr (length buffer.old) mapped }
    ensures count { result ≡ reached (io_location (H.host h.now) (M.layout backend.now) table set Read)
        (circular addr (length buffer.old)) }
    ensures bytes { buffer.new ≡ read_first (io_memory (H.host h.now) (M.layout backend.now) table set)
        (circular addr (length buffer.old)) result buffer.old }
{
    let _ = table;
    let mut left = PiecesLeft::new(mapped);
    let mut done = 0;
    while done < buffer.len() {
        let Some(window) = left.next_window(backend, set, addr + done as u64) else {
            return done;
        };
        put_at(buffer, done, h.bytes(window));
        done += window.len();
    }
    done
}

// Writes bytes from an address on, up to the first without a place, and returns their number.
pub(crate) fn write_io<M: GuestMemoryBackend, B: NewBitmap>(
    backend: &M,
    h: &mut HostMemory<B>,
    table: usize,
    set: usize,
    bytes: &[u8],
    addr: u64,
) -> usize
    requires { (addr + length bytes.now < 2 ^ 64)
        × (may_all (table_in h.old table) Write addr (length bytes.now) ≡ true)
        × AreHeld (lengths h.old) (M.layout backend.now) }
    ensures count { result ≡ reached (io_location h.old (M.layout backend.now) table set Write)
        (circular addr (length bytes.now)) }
    ensures stored { let places = places_at (io_location h.old (M.layout backend.now) table set Write)
        (circular addr (length bytes.now)) in
        Stores h.old h.new places bytes.now }
    ensures shape { shape h.new ≡ shape h.old }
{
    let mut done = 0;
    while done < bytes.len() {
        let at = addr + done as u64;
        let most = bytes.len() - done;
        let Some(window) = io_window(backend, h, table, set, Permissions::Write, at, most) else {
            return done;
        };
        h.write(window, &bytes[done..][..window.len()]);
        done += window.len();
    }
    done
}
