//! The ranges of a table, keyed by their starts, and their changes.

ghost use Rattle.std.specs.Prelude.{◌≡◌, ℕ, ◌+◌, ◌<◌, ◌≤◌, ◌&&◌, nat_le, nat_lt, true, None, Some, IsSome};
ghost use Rattle.std.specs.Prelude.{if◌then◌else◌, OnOk, OnErr, MatchOption};
ghost use Rattle.std.specs.Map.{values_of};
ghost use Rattle.std.specs.BTreeMap.{BTreeMap as SeenMap, IsOrdered};
ghost use Rattle.std.specs.Ordering.{nat_cmp};
ghost use Rattle.vm_iotlb.specs.AddressRuns.{begins_anew_about, carries_on_at};
ghost use Rattle.vm_iotlb.specs.Ranges.{AddsRange, AreRanges, IsRange, table_held, with_range};
ghost use Rattle.vm_iotlb.specs.Keys.{AreKeyed, Divides, HasAddress, IsNoKey, IsLastUpTo, IsKey, JoinsLeft};
ghost use Rattle.vm_iotlb.specs.Keys.{JoinsRight, NoneUpTo};
ghost use Rattle.vm_iotlb.specs.Keys.{ReachesFrom, cleared, joined, left_over, part_from, part_up_to, put_at};
ghost use Rattle.vm_iotlb.specs.Keys.{range_at, right_over};
ghost use Rattle.vm_iotlb.specs.declared.range.IotlbRange.{IotlbRange};

use crate::range::IotlbRange;
use std::alloc::AllocError;
use std::collections::BTreeMap;

// Each range, keyed by its start.
pub(crate) type Ranges = BTreeMap<u64, IotlbRange>;

// The range with the greatest start that is at most `addr`.
#[inline]
pub(crate) fn last_up_to(ranges: &Ranges, addr: u64) -> Option<&IotlbRange>
    requires { AreKeyed ranges.now.entries }
    ensures { MatchOption result (NoneUpTo ranges.now.entries addr)
        (λ r. IsLastUpTo ranges.now.entries addr r.now) }
{
    match ranges.range(..=addr).next_back() {
        Some((_, range)) => Some(range),
        None => None,
    }
}

// A number that divides the keys: ranges below it end at or below `addr`, and ranges from it on end above.
#[inline]
pub(crate) fn key_from(ranges: &Ranges, addr: u64) -> u64
    requires keyed { AreKeyed ranges.now.entries }
    requires ranges { AreRanges (values_of ranges.now.entries) }
    ensures { Divides ranges.now.entries result addr }
{
    let Some(range) = last_up_to(ranges, addr) else {
        return addr;
    };
    if range.end <= addr {
        return addr;
    }
    range.start
}

// The range that begins below `addr` and ends at `addr` or above it.
fn reaching_from(ranges: &Ranges, addr: u64) -> Option<IotlbRange>
    requires keyed { AreKeyed ranges.now.entries }
    requires ranges { AreRanges (values_of ranges.now.entries) }
    ensures { ReachesFrom ranges.now.entries addr result }
{
    if addr == 0 {
        return None;
    }
    match last_up_to(ranges, addr - 1) {
        Some(range) if addr <= range.end => Some(*range),
        Some(_) => None,
        None => None,
    }
}

// The range that contains `addr`.
pub(crate) fn having(ranges: &Ranges, addr: u64) -> Option<IotlbRange>
    requires keyed { AreKeyed ranges.now.entries }
    requires ranges { AreRanges (values_of ranges.now.entries) }
    ensures { HasAddress ranges.now.entries addr result }
{
    match last_up_to(ranges, addr) {
        Some(range) if addr < range.end => Some(*range),
        Some(_) => None,
        None => None,
    }
}

// A map's keys ascend. This is a theorem: the call does nothing.
fn law_ordered(ranges: &Ranges)
    ensures { IsOrdered nat_cmp ranges.now }
{
    let _len = ranges.len();
}

// Inserts a range, keyed by its start. Only a new key can allocate. AllocError: nothing changed.
fn put(ranges: &mut Ranges, range: Option<IotlbRange>) -> Result<(), AllocError>
    ensures ok { OnOk result ((q : ℕ)
        → range_at ranges.new.entries q ≡ put_at range (range_at ranges.old.entries) q) }
    ensures err { OnErr result (ranges.new.entries ≡ ranges.old.entries) }
    ensures free { OnErr result (IsKey (range_at ranges.old.entries) range → ⊥) }
{
    match range {
        Some(range) => {
            ranges.insert(range.start, range)?;
            Ok(())
        }
        None => Ok(()),
    }
}

// Removes a range that was inserted under a new key.
fn take_back(ranges: &mut Ranges, range: Option<IotlbRange>)
    ensures { (before : SeenMap ℕ IotlbRange)
        → IsOrdered nat_cmp before
        → IsNoKey (range_at before.entries) range
        → ((q : ℕ) → range_at ranges.old.entries q ≡ put_at range (range_at before.entries) q)
        → ranges.new.entries ≡ before.entries }
{
    match range {
        Some(range) => {
            ranges.remove(&range.start);
        }
        None => law_ordered(ranges),
    }
}

// The first key from `from` up to `to`, excluded.
fn key_between(ranges: &Ranges, from: u64, to: u64) -> Option<u64>
    requires { from ≤ to }
    ensures { MatchOption result ((q : ℕ) → from ≤ q → q < to → range_at ranges.now.entries q ≡ None)
        (λ k. (from ≤ k) × (k < to) × IsSome (range_at ranges.now.entries k)) }
{
    match ranges.range(from..to).next() {
        Some((key, _)) => Some(*key),
        None => None,
    }
}

// Removes the ranges whose starts are from `from` up to `to`, excluded.
fn clear(ranges: &mut Ranges, from: u64, to: u64)
    requires { from ≤ to }
    ensures { (q : ℕ) → range_at ranges.new.entries q ≡ cleared from to (range_at ranges.old.entries) q }
{
    while let Some(key) = key_between(ranges, from, to) {
        ranges.remove(&key);
    }
}

// Inserts up to three ranges, then removes those whose starts are from `from` up to `to`, excluded. The first
// one's key must be new, and the third one's must exist. Only a new key can allocate. AllocError: nothing
// changed.
fn exchange(
    ranges: &mut Ranges,
    puts: (Option<IotlbRange>, Option<IotlbRange>, Option<IotlbRange>),
    from: u64,
    to: u64,
) -> Result<(), AllocError>
    requires order { from ≤ to }
    requires free { IsNoKey (range_at ranges.old.entries) puts.0 }
    requires taken { IsKey (range_at ranges.old.entries) puts.2 }
    ensures ok { OnOk result ((q : ℕ) → range_at ranges.new.entries q
        ≡ cleared from to (put_at puts.2 (put_at puts.1 (put_at puts.0 (range_at ranges.old.entries)))) q) }
    ensures err { OnErr result (ranges.new.entries ≡ ranges.old.entries) }
    ensures memory { OnErr result (IsKey (range_at ranges.old.entries) puts.0
        → IsKey (range_at ranges.old.entries) puts.1
        → ⊥) }
    ensures ordered { IsOrdered nat_cmp ranges.new }
{
    let (behind, new, before) = puts;
    law_ordered(ranges);
    put(ranges, behind)?;
    if put(ranges, new).is_err() {
        take_back(ranges, behind);
        law_ordered(ranges);
        return Err(AllocError);
    }
    put(ranges, before)?;
    clear(ranges, from, to);
    law_ordered(ranges);
    Ok(())
}

// The part of a range below `end`.
fn part_up_to(range: Option<IotlbRange>, end: u64) -> Option<IotlbRange>
    ensures { result ≡ part_up_to range end }
{
    match range {
        Some(range) => Some(IotlbRange { end, ..range }),
        None => None,
    }
}

// The part of a range from `start` on. None if the range begins there.
fn part_from(range: Option<IotlbRange>, start: u64) -> Option<IotlbRange>
    requires { MatchOption range (Unit {0}) (λ r. IsRange r × (r.start ≤ start) × (start < r.end)) }
    ensures { result ≡ part_from range start }
{
    match range {
        Some(range) if range.start < start => Some(IotlbRange {
            start,
            target: range.target + (start - range.start),
            ..range
        }),
        Some(_) => None,
        None => None,
    }
}

// The range before `range`, if both can be joined into one range.
fn joined_left(range: &IotlbRange, before: Option<IotlbRange>) -> Option<IotlbRange>
    requires range { IsRange range.now }
    requires before { MatchOption before (Unit {0}) (λ b. IsRange b
        × (b.start ≤ range.now.start)
        × (range.now.start ≤ b.end)) }
    ensures { JoinsLeft range.now before result }
{
    match before {
        Some(before) if before.aligns(range) => Some(before),
        Some(_) => None,
        None => None,
    }
}

// The range behind `range`, if both can be joined into one range.
fn joined_right(range: &IotlbRange, after: Option<IotlbRange>) -> Option<IotlbRange>
    requires range { IsRange range.now }
    requires after { MatchOption after (Unit {0}) (λ a. IsRange a
        × (a.start ≤ range.now.end)
        × (range.now.end < a.end)) }
    ensures { JoinsRight range.now after result }
{
    match after {
        Some(after) if range.carries_on_in(&after) => Some(after),
        Some(_) => None,
        None => None,
    }
}

// The range joined with those before and behind it.
fn joined(range: &IotlbRange, left: Option<IotlbRange>, right: Option<IotlbRange>) -> IotlbRange
    ensures { result ≡ joined range.now left right }
{
    let mut new = *range;
    if let Some(left) = left {
        new.start = left.start;
        new.target = left.target;
    }
    if let Some(right) = right {
        new.end = right.end;
    }
    new
}

// The rest of the range before, up to `end`. None if it was joined.
fn left_over(left: Option<IotlbRange>, before: Option<IotlbRange>, end: u64) -> Option<IotlbRange>
    ensures { result ≡ left_over left before end }
{
    match left {
        Some(_) => None,
        None => part_up_to(before, end),
    }
}

// The rest of the range behind, from `start` on. None if it was joined.
fn right_over(
    right: Option<IotlbRange>,
    after: Option<IotlbRange>,
    start: u64,
) -> Option<IotlbRange>
    requires { MatchOption after (Unit {0}) (λ r. IsRange r × (r.start ≤ start) × (start < r.end)) }
    ensures { result ≡ right_over right after start }
{
    match right {
        Some(_) => None,
        None => part_from(after, start),
    }
}

// Maps the addresses of a range, and replaces their earlier mappings. It can allocate only if a run begins at
// its start or at its end where none began before.
pub(crate) fn map_range(ranges: &mut Ranges, range: &IotlbRange) -> Result<(), AllocError>
    requires keyed { AreKeyed ranges.old.entries }
    requires ranges { AreRanges (values_of ranges.old.entries) }
    requires range { IsRange range.now }
    ensures keyed { AreKeyed ranges.new.entries }
    ensures ranges { AreRanges (values_of ranges.new.entries) }
    ensures table { OnOk result
        (AddsRange range.now (values_of ranges.old.entries) (values_of ranges.new.entries)) }
    ensures err { OnErr result (ranges.new.entries ≡ ranges.old.entries) }
    ensures memory { OnErr result (begins_anew_about (table_held (values_of ranges.old.entries))
        (with_range range.now (table_held (values_of ranges.old.entries))) range.now.start range.now.end
        ≡ true) }
{
    let before = reaching_from(ranges, range.start);
    let after = having(ranges, range.end);
    let left = joined_left(range, before);
    let right = joined_right(range, after);
    let new = joined(range, left, right);
    let puts = (
        right_over(right, after, range.end),
        Some(new),
        left_over(left, before, range.start),
    );
    exchange(ranges, puts, new.start + 1, new.end)
}

// Removes the mappings from `start` up to `end`, excluded. It can allocate only if a run goes on at `end`.
pub(crate) fn take_out(ranges: &mut Ranges, start: u64, end: u64) -> Result<(), AllocError>
    requires keyed { AreKeyed ranges.old.entries }
    requires ranges { AreRanges (values_of ranges.old.entries) }
    requires order { start < end }
    ensures keyed { AreKeyed ranges.new.entries }
    ensures ranges { AreRanges (values_of ranges.new.entries) }
    ensures table { OnOk result ((a : ℕ) → table_held (values_of ranges.new.entries) a
        ≡ (if nat_le start a && nat_lt a end then None else table_held (values_of ranges.old.entries) a)) }
    ensures err { OnErr result (ranges.new.entries ≡ ranges.old.entries) }
    ensures memory { OnErr result (carries_on_at (table_held (values_of ranges.old.entries)) end ≡ true) }
{
    let before = reaching_from(ranges, start);
    let after = having(ranges, end);
    let puts = (part_from(after, end), None, part_up_to(before, start));
    exchange(ranges, puts, start, end)
}
