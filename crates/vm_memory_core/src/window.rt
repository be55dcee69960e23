//! A window over host memory (vm-memory's `VolatileSlice`).

ghost use Rattle.std.specs.Prelude.{IfOk, IfSome, None, Some, ◌≡◌, ◌==◌, ◌+◌, ◌<◌, ◌≤◌, ◌^◌};
ghost use Rattle.std.specs.Option.{is_none};
ghost use Rattle.vm_memory_core.specs.Window.{io_from, places_of, with_io};
ghost use Rattle.vm_memory_core.specs.Parts.{halves_of, part_of, reached_part, rest_of, sub_window};

use crate::error::{VolatileMemoryError, compute_offset};
use smallvec::SmallVec;
use std::marker::Model;

/// Consecutive bytes of a block of host memory (vm-memory's `VolatileSlice`). It is a plain value: calls that
/// access the bytes borrow the host.
#[derive(Clone, Copy, Debug, Default)]
pub struct VolatileSlice {
    block: usize,
    offset: usize,
    len: usize,
    set: usize,
    by: u64,
    marks: Marking,
}

/// The pages that writes to a window mark: those of its block, or I/O pages of one of the host's sets. The
/// I/O address of a byte is its offset in the block plus or minus the window's `by`. So a part of a window
/// marks as the window does.
#[derive(Clone, Copy, Debug, Default)]
pub enum Marking {
    /// The pages of its block, of 4096 bytes each.
    #[default]
    InBlock,
    /// I/O pages: an I/O address is the offset in the block plus `by`.
    IoAbove,
    /// I/O pages: an I/O address is the offset in the block minus `by`.
    IoBelow,
}

/// The I/O pages that writes mark instead of the block's own: those of one of the host's sets. The byte at
/// offset `from` of the block has the I/O address `base` there.
#[derive(Clone, Copy, Debug)]
pub struct IoMarks {
    /// The number of the set.
    pub set: usize,
    /// The I/O address of the byte at `from`.
    pub base: u64,
    /// An offset in the block, in bytes.
    pub from: usize,
}

/// Windows in order. The first two need no allocation.
pub type Windows = SmallVec<VolatileSlice, 2>;

impl Model for VolatileSlice {
    ghost use Rattle.std.specs.Prelude.{ℕ, ◌+◌, ◌<◌, ◌^◌};
    ghost use Rattle.std.proofs.Common.{ap};
    ghost use Rattle.vm_memory_core.specs.Window.{Window, BeginsBy, by_of, io_of, marking_of, marking_back};
    ghost use Rattle.vm_memory_core.specs.Window.{set_of};
    ghost use Rattle.vm_memory_core.specs.declared.window.Marking.{Marking};

    ghost Value = { Window };

    ghost view = { λ w.
        record { block = w.block; offset = w.offset; len = w.len; io = io_of w.marks w.set w.by } };

    ghost invariant = { λ w. (w.offset + w.len < 2 ^ 64) × BeginsBy w.offset w.marks w.set w.by };

    ghost inverse = { λ w. record {
      block = w.block;
      offset = w.offset;
      len = w.len;
      set = set_of w.io;
      by = by_of w.io;
      marks = marking_of w.io;
    } };

    ghost inverse_ok = { λ w h. ap (λ (m : Marking
        × ℕ
        × ℕ). record w { marks = m.0; set = m.1; by = m.2 }) (marking_back w.marks w.offset w.set w.by h.1) };
}

impl VolatileSlice {
    /// The window of `len` bytes of a block from `offset` on. `HostMemory::has` returns whether a host has
    /// it.
    pub fn new(block: usize, offset: usize, len: usize) -> VolatileSlice
        requires { offset + len < 2 ^ 64 }
        ensures { result ≡ record { block = block; offset = offset; len = len; io = None } }
    {
        VolatileSlice {
            block,
            offset,
            len,
            set: 0,
            by: 0,
            marks: Marking::InBlock,
        }
    }

    /// The same bytes, but writes mark I/O pages of the host's set `io`, where the first byte has the I/O
    /// address `base` (vm-memory's `VolatileSlice::replace_bitmap`).
    pub fn replace_bitmap(&self, io: usize, base: u64) -> VolatileSlice
        ensures window { result ≡ record self.now { io = Some (io_from io base self.now.offset) } }
        ensures places { places_of result ≡ with_io io base (places_of self.now) }
    {
        let offset = self.offset as u64;
        if offset <= base {
            VolatileSlice {
                set: io,
                by: base - offset,
                marks: Marking::IoAbove,
                ..*self
            }
        } else {
            VolatileSlice {
                set: io,
                by: offset - base,
                marks: Marking::IoBelow,
                ..*self
            }
        }
    }

    // Whether writes to it mark the pages of its block.
    pub(crate) fn marks_its_block(&self) -> bool
        ensures { result ≡ is_none self.now.io }
    {
        match self.marks {
            Marking::InBlock => true,
            Marking::IoAbove => false,
            Marking::IoBelow => false,
        }
    }

    /// The I/O pages that writes to it mark. None if they mark the pages of its block.
    pub fn io(&self) -> Option<IoMarks>
        ensures value { result ≡ self.now.io }
        ensures from { IfSome result (λ m. m.from ≤ self.now.offset) }
    {
        match self.marks {
            Marking::InBlock => None,
            Marking::IoAbove => Some(IoMarks {
                set: self.set,
                base: self.by,
                from: 0,
            }),
            Marking::IoBelow => Some(IoMarks {
                set: self.set,
                base: 0,
                from: self.by as usize,
            }),
        }
    }

    /// The number of its block.
    pub fn block(&self) -> usize
        ensures { result ≡ self.now.block }
    {
        self.block
    }

    /// Its offset in its block, in bytes.
    pub fn block_offset(&self) -> usize
        ensures { result ≡ self.now.offset }
    {
        self.offset
    }

    /// Its number of bytes.
    pub fn len(&self) -> usize
        ensures len { result ≡ self.now.len }
        ensures fits { self.now.offset + self.now.len < 2 ^ 64 }
    {
        self.len
    }

    /// Whether it has no bytes.
    pub fn is_empty(&self) -> bool
        ensures { result ≡ (self.now.len == 0) }
    {
        self.len == 0
    }

    /// The window without its first `count` bytes (vm-memory's `VolatileSlice::offset`). OutOfBounds if it
    /// has fewer.
    pub fn offset(&self, count: usize) -> Result<VolatileSlice, VolatileMemoryError>
        ensures { result ≡ rest_of self.now count }
    {
        if count > self.len {
            return Err(VolatileMemoryError::OutOfBounds { addr: count });
        }
        Ok(self.part(count, self.len - count))
    }

    /// Its `count` bytes from `offset` on (vm-memory's `VolatileSlice::subslice`). Overflow if their end
    /// doesn't fit 64 bits. OutOfBounds if the window doesn't have them.
    pub fn subslice(
        &self,
        offset: usize,
        count: usize,
    ) -> Result<VolatileSlice, VolatileMemoryError>
        ensures { result ≡ sub_window self.now offset count }
    {
        match compute_offset(offset, count) {
            Ok(end) if end <= self.len => Ok(self.part(offset, count)),
            Ok(addr) => Err(VolatileMemoryError::OutOfBounds { addr }),
            Err(error) => Err(error),
        }
    }

    /// Its first `mid` bytes, and the rest (vm-memory's `VolatileSlice::split_at`). OutOfBounds if it has
    /// fewer.
    pub fn split_at(
        &self,
        mid: usize,
    ) -> Result<(VolatileSlice, VolatileSlice), VolatileMemoryError>
        ensures { result ≡ halves_of self.now mid }
    {
        if mid > self.len {
            return Err(VolatileMemoryError::OutOfBounds { addr: mid });
        }
        let front = VolatileSlice { len: mid, ..*self };
        let back = self.part(mid, self.len - mid);
        Ok((front, back))
    }

    // Its `count` bytes from `offset` on. It must have them.
    pub(crate) fn part(&self, offset: usize, count: usize) -> VolatileSlice
        requires { offset + count ≤ self.now.len }
        ensures { result ≡ part_of self.now offset count }
    {
        VolatileSlice {
            offset: self.offset + offset,
            len: count,
            ..*self
        }
    }

    // The bytes that an access of `count` bytes from `addr` on reaches: as many of them as the window has.
    // OutOfBounds if it has no byte at `addr` and `count` isn't 0.
    pub(crate) fn reached_part(
        &self,
        addr: usize,
        count: usize,
    ) -> Result<VolatileSlice, VolatileMemoryError>
        ensures window { result ≡ reached_part self.now addr count }
        ensures block { IfOk result (λ w. w.block ≡ self.now.block) }
        ensures inside { IfOk result (λ w. w.offset + w.len ≤ self.now.offset + self.now.len) }
        ensures most { IfOk result (λ w. w.len ≤ count) }
    {
        if count == 0 {
            return Ok(self.part(0, 0));
        }
        if addr >= self.len {
            return Err(VolatileMemoryError::OutOfBounds { addr });
        }
        let count = count.min(self.len - addr);
        Ok(self.part(addr, count))
    }
}
