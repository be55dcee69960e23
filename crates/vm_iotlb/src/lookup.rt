//! The results of a look-up.

ghost use Rattle.std.specs.Prelude.{◌≡◌, ◌+◌, ◌^◌, ◌-◌, ◌≤◌, ◌<◌, ◌++◌, ◌∷◌, List, [], IfOk, OnOk};
ghost use Rattle.std.specs.Prelude.{MatchOption, length};
ghost use Rattle.std.specs.Iterator.{at_most};
ghost use Rattle.std.specs.Map.{values_of};
ghost use Rattle.vm_iotlb.specs.Ranges.{Agree, AreRanges, EndsAbove, table_held};
ghost use Rattle.vm_iotlb.specs.Keys.{AreKeyed, IsLastUpTo, NoneUpTo};
ghost use Rattle.vm_iotlb.specs.Table.{Table};
ghost use Rattle.vm_iotlb.specs.Pieces.{AreMapped, IsFoundAt};
ghost use Rattle.vm_iotlb.specs.declared.iova.IovaRange.{IovaRange};
ghost use Rattle.vm_iotlb.specs.AddressRuns.{IsMissedWhole, between, lacking, may_all, missing, pieces};

use crate::iova::{IovaRange, MappedRange};
use crate::permissions::Permissions;
use crate::range::IotlbRange;
use crate::ranges::{Ranges, last_up_to};
use std::alloc::{AllocError, Global};
use std::collections::btree_map::Range;
use std::marker::Model;
use thiserror::Error;
use vm_values::GuestAddress;

/// The addresses at which a look-up fails (vm-memory's `IotlbFails`). The ranges ascend. Each is a longest
/// run, among the addresses asked for, that has no mapping or is mapped as one.
#[derive(Debug, Drop)]
pub struct IotlbFails {
    /// Addresses that have no mapping.
    pub misses: Vec<IovaRange>,
    /// Addresses whose mapping doesn't have the permission.
    pub access_fails: Vec<IovaRange>,
}

/// An error of `Iotlb::lookup`.
#[derive(Debug, Drop, Error)]
pub enum LookupError {
    /// Some addresses aren't mapped with the permission.
    #[error("not mapped throughout with the permission")]
    Fails(IotlbFails),
    #[error("out of memory")]
    OutOfMemory,
}

// The range with the greatest start that is at most `addr`. It is `found`, if that is there.
#[inline]
fn found_or_last<'a>(
    ranges: &'a Ranges,
    found: Option<&'a IotlbRange>,
    addr: u64,
) -> Option<&'a IotlbRange>
    requires keyed { AreKeyed ranges.now.entries }
    requires found { IsFoundAt ranges.now.entries found addr }
    ensures { MatchOption result (NoneUpTo ranges.now.entries addr)
        (λ r. IsLastUpTo ranges.now.entries addr r.now) }
{
    match found {
        Some(range) => Some(range),
        None => last_up_to(ranges, addr),
    }
}

/// The addresses that I/O addresses are mapped to, run by run (vm-memory's `IotlbIterator`).
#[derive(Drop)]
pub struct IotlbIterator<'a> {
    ranges: Option<&'a Ranges>,
    found: Option<&'a IotlbRange>,
    next: u64,
    end: u64,
}

impl<'a> Model for IotlbIterator<'a> {
    ghost use Rattle.std.specs.Prelude.{List};
    ghost use Rattle.vm_iotlb.specs.declared.iova.MappedRange.{MappedRange};
    ghost use Rattle.vm_iotlb.specs.Pieces.{CanGoOn, pieces_left};

    ghost Value = { List MappedRange };

    ghost view = { λ i. pieces_left i.ranges i.next i.end };

    ghost invariant = { λ i. CanGoOn i.ranges i.found i.next i.end };
}

impl<'a> IotlbIterator<'a> {
    // The mapped ranges of the addresses from `iova` up to `end`, excluded. Each of them must be mapped.
    #[inline]
    pub(crate) fn over(ranges: &'a Ranges, iova: u64, end: u64) -> IotlbIterator<'a>
        requires keyed { AreKeyed ranges.now.entries }
        requires ranges { AreRanges (values_of ranges.now.entries) }
        requires mapped { AreMapped (table_held (values_of ranges.now.entries)) iova end }
        ensures { result ≡ pieces (table_held (values_of ranges.now.entries)) iova (end - iova) }
    {
        IotlbIterator {
            ranges: Some(ranges),
            found: None,
            next: iova,
            end,
        }
    }

    // The same, with the range that contains `iova`.
    #[inline]
    pub(crate) fn from_range(
        ranges: &'a Ranges,
        range: &'a IotlbRange,
        iova: u64,
        end: u64,
    ) -> IotlbIterator<'a>
        requires keyed { AreKeyed ranges.now.entries }
        requires ranges { AreRanges (values_of ranges.now.entries) }
        requires mapped { AreMapped (table_held (values_of ranges.now.entries)) iova end }
        requires found { IsLastUpTo ranges.now.entries iova range.now }
        ensures { result ≡ pieces (table_held (values_of ranges.now.entries)) iova (end - iova) }
    {
        IotlbIterator {
            ranges: Some(ranges),
            found: Some(range),
            next: iova,
            end,
        }
    }
}

impl<'a> Default for IotlbIterator<'a> {
    /// An iterator without items.
    fn default() -> IotlbIterator<'a>
        ensures { result ≡ [] }
    {
        IotlbIterator {
            ranges: None,
            found: None,
            next: 0,
            end: 0,
        }
    }
}

impl<'a> Iterator for IotlbIterator<'a> {
    type Item = MappedRange;

    ghost next_gives = { λ s r t. MatchOption r ((s ≡ [])
        × (t ≡ [])) (λ x. (s ≡ x ∷ t) × (x.base.0 + x.length < 2 ^ 64)) };

    ghost remaining = { λ s. at_most (length s) };

    #[inline]
    fn next(&mut self) -> Option<MappedRange> {
        if self.end <= self.next {
            return None;
        }
        let Some(ranges) = self.ranges else {
            return None;
        };
        let Some(range) = found_or_last(ranges, self.found.take(), self.next) else {
            return None;
        };
        let stop = range.end.min(self.end);
        let piece = MappedRange {
            base: GuestAddress(range.target + (self.next - range.start)),
            length: (stop - self.next) as usize,
        };
        self.next = stop;
        Some(piece)
    }
}

// Whether each address from `iova` up to `end`, excluded, allows `access`.
#[inline]
pub(crate) fn is_covered(
    ranges: Range<'_, u64, IotlbRange>,
    iova: u64,
    end: u64,
    access: Permissions,
) -> bool
    requires ranges { AreRanges (values_of ranges) }
    requires first { EndsAbove iova (values_of ranges) }
    requires order { iova ≤ end }
    ensures { (table : Table)
        → Agree table (values_of ranges.entry) iova end
        → result ≡ may_all table access iova (end - iova) }
{
    let mut next = iova;
    for (_, range) in ranges {
        if end <= next {
            return true;
        }
        if next < range.start {
            return false;
        }
        if !range.perm.allow(access) {
            return false;
        }
        next = range.end.min(end);
    }
    end <= next
}

// The first run of addresses without a mapping, from `iova` up to `end`, excluded.
pub(crate) fn first_gap(
    ranges: Range<'_, u64, IotlbRange>,
    iova: u64,
    end: u64,
) -> Option<IovaRange>
    requires ranges { AreRanges (values_of ranges) }
    requires first { EndsAbove iova (values_of ranges) }
    requires order { iova ≤ end }
    ensures { (table : Table)
        → Agree table (values_of ranges.entry) iova end
        → MatchOption result (missing table iova (end - iova) ≡ []) (λ r. (rest : List IovaRange)
        × (missing table iova (end - iova) ≡ r ∷ rest)) }
{
    let mut next = iova;
    for (_, range) in ranges {
        if end <= next {
            return None;
        }
        if next < range.start {
            let stop = range.start.min(end);
            return Some(IovaRange {
                base: GuestAddress(next),
                length: (stop - next) as usize,
            });
        }
        next = range.end.min(end);
    }
    if end <= next {
        return None;
    }
    Some(IovaRange {
        base: GuestAddress(next),
        length: (end - next) as usize,
    })
}

// The error for a range whose end doesn't fit 64 bits: all of it is missing.
pub(crate) fn misses_whole(alloc: Global, iova: GuestAddress, length: usize) -> LookupError
    ensures { IsMissedWhole iova.0 length result }
{
    let mut misses = Vec::new(alloc);
    let range = IovaRange { base: iova, length };
    match misses.push(range) {
        Ok(()) => LookupError::Fails(IotlbFails {
            misses,
            access_fails: Vec::new(alloc),
        }),
        Err(_) => LookupError::OutOfMemory,
    }
}

// Adds the range of the addresses from `start` up to `end`, excluded, if there are any.
fn push_between(ranges: &mut Vec<IovaRange>, start: u64, end: u64) -> Result<(), AllocError>
    ensures { OnOk result (ranges.new.items ≡ ranges.old.items ++ between start end) }
{
    if end <= start {
        return Ok(());
    }
    ranges.push(IovaRange {
        base: GuestAddress(start),
        length: (end - start) as usize,
    })?;
    Ok(())
}

// The addresses from `iova` up to `end`, excluded, that have no mapping or don't allow `access`.
pub(crate) fn fails_among(
    alloc: Global,
    ranges: Range<'_, u64, IotlbRange>,
    iova: u64,
    end: u64,
    access: Permissions,
) -> Result<IotlbFails, AllocError>
    requires ranges { AreRanges (values_of ranges) }
    requires first { EndsAbove iova (values_of ranges) }
    requires order { iova ≤ end }
    ensures misses { (table : Table) → Agree table (values_of ranges.entry) iova end
        → IfOk result (λ f. f.misses.items ≡ missing table iova (end - iova)) }
    ensures access { (table : Table) → Agree table (values_of ranges.entry) iova end
        → IfOk result (λ f. f.access_fails.items ≡ lacking table access iova (end - iova)) }
{
    let mut misses = Vec::new(alloc);
    let mut access_fails = Vec::new(alloc);
    let mut next = iova;
    for (_, range) in ranges {
        if end <= next {
            return Ok(IotlbFails {
                misses,
                access_fails,
            });
        }
        let start = range.start.max(next).min(end);
        let stop = range.end.min(end);
        let denied = if range.perm.allow(access) {
            stop
        } else {
            start
        };
        push_between(&mut misses, next, start)?;
        push_between(&mut access_fails, denied, stop)?;
        next = stop;
    }
    push_between(&mut misses, next, end)?;
    Ok(IotlbFails {
        misses,
        access_fails,
    })
}
