//! A range of a table.

ghost use Rattle.std.specs.Prelude.{◌≤◌, ◌<◌};
ghost use Rattle.std.specs.Bool.{OnFalse, OnTrue};
ghost use Rattle.vm_iotlb.specs.Ranges.{IsRange};
ghost use Rattle.vm_iotlb.specs.Keys.{Aligns, AlignsBehind};

use crate::permissions::Permissions;

/// Consecutive I/O addresses, of one byte each, that are mapped to consecutive addresses.
#[derive(Clone, Copy)]
pub struct IotlbRange {
    /// The first I/O address.
    pub start: u64,
    /// The I/O address right behind the last.
    pub end: u64,
    /// The address that the first one is mapped to. The others are mapped to the addresses behind it.
    pub target: u64,
    /// The accesses that are allowed.
    pub perm: Permissions,
}

impl IotlbRange {
    // Whether it maps the addresses from `next.start` on as `next` does, once it is extended that far.
    pub(crate) fn aligns(&self, next: &IotlbRange) -> bool
        requires range { IsRange self.now }
        requires order { (self.now.start ≤ next.now.start) × (next.now.start ≤ self.now.end) }
        ensures yes { OnTrue result (Aligns self.now next.now) }
        ensures no { OnFalse result (Aligns self.now next.now → ⊥) }
    {
        self.target + (next.start - self.start) == next.target && self.perm == next.perm
    }

    // Whether `next` maps the addresses from this range's end on as this range would, extended that far.
    pub(crate) fn carries_on_in(&self, next: &IotlbRange) -> bool
        requires range { IsRange self.now × IsRange next.now }
        requires order { (next.now.start ≤ self.now.end) × (self.now.end < next.now.end) }
        ensures yes { OnTrue result (AlignsBehind next.now self.now) }
        ensures no { OnFalse result (AlignsBehind next.now self.now → ⊥) }
    {
        self.target + (self.end - self.start) == next.target + (self.end - next.start)
            && self.perm == next.perm
    }
}
