//! An IOMMU's table (vm-memory's `Iotlb`).

ghost use Rattle.std.specs.Prelude.{◌≡◌, ℕ, ◌+◌, ◌<◌, ◌≤◌, ◌^◌, List, [], ◌∷◌, IfOk, IfSome, OnSome, None};
ghost use Rattle.std.specs.Prelude.{MatchOption, true, false};
ghost use Rattle.std.specs.Map.{values_of};
ghost use Rattle.vm_iotlb.specs.Changes.{InvalidatesMapping, SetsMapping};
ghost use Rattle.vm_iotlb.specs.Ranges.{AreRanges, EndsAbove, table_held};
ghost use Rattle.vm_iotlb.specs.AddressRuns.{LooksUp, may_all, may_pass, missing, pieces};
ghost use Rattle.vm_iotlb.specs.Table.{AreSame};
ghost use Rattle.vm_iotlb.specs.declared.iova.IovaRange.{IovaRange};
ghost use Rattle.vm_iotlb.specs.declared.iova.MappedRange.{MappedRange};
ghost use Rattle.vm_iotlb.specs.declared.permissions.Permissions.{Permissions};

use crate::error::IommuError;
use crate::iova::{IovaRange, MappedRange};
use crate::lookup::{IotlbIterator, LookupError, fails_among, first_gap, is_covered, misses_whole};
use crate::permissions::Permissions;
use crate::range::IotlbRange;
use crate::ranges::{Ranges, having, key_from, last_up_to, map_range, take_out};
use std::alloc::{AllocError, Global};
use std::collections::BTreeMap;
use std::collections::btree_map::Range;
use std::marker::Model;
use vm_values::GuestAddress;

/// The target and the permission of each mapped I/O address (vm-memory's `Iotlb`). Lengths count bytes.
/// In contracts a table is the list of its ranges, and `table_held` is the mapping of each address.
#[derive(Drop)]
pub struct Iotlb {
    alloc: Global,
    ranges: Ranges,
}

impl Model for Iotlb {
    ghost use Rattle.std.specs.Prelude.{List};
    ghost use Rattle.vm_iotlb.specs.declared.range.IotlbRange.{IotlbRange};
    ghost use Rattle.std.specs.Map.{values_of};
    ghost use Rattle.vm_iotlb.specs.Keys.{AreKeyed};
    ghost use Rattle.vm_iotlb.specs.Ranges.{AreRanges};

    ghost Value = { List IotlbRange };

    ghost view = { λ t. values_of t.ranges.entries };

    ghost invariant = { λ t. AreKeyed t.ranges.entries × AreRanges (values_of t.ranges.entries) };
}

impl Iotlb {
    /// A table without mappings (vm-memory's `Iotlb::new`).
    pub fn new(alloc: Global) -> Iotlb
        ensures { result ≡ [] }
    {
        Iotlb {
            alloc,
            ranges: BTreeMap::new(alloc),
        }
    }

    /// A copy, in memory of the allocator that this table was made with. AllocError if an allocation fails.
    pub fn try_clone(&self) -> Result<Iotlb, AllocError>
        ensures { IfOk result (λ t. t ≡ self.now) }
    {
        Ok(Iotlb {
            alloc: self.alloc,
            ranges: self.ranges.clone()?,
        })
    }

    /// Maps `length` I/O addresses from `iova` on to those from `target` on, and replaces their earlier
    /// mappings (vm-memory's `Iotlb::set_mapping`). An error changes nothing:
    /// - IommuMisconfigured: `iova + length` or `target + length` doesn't fit 64 bits.
    /// - OutOfMemory: an allocation failed. It allocates only if a run of addresses that are mapped as one
    ///   begins where none did: at `iova` or right behind the last address.
    pub fn set_mapping(
        &mut self,
        iova: GuestAddress,
        target: GuestAddress,
        length: usize,
        perm: Permissions,
    ) -> Result<(), IommuError>
        ensures { SetsMapping iova.0 target.0 length perm self.old self.new result }
    {
        let Some(end) = iova.0.checked_add(length as u64) else {
            return Err(IommuError::IommuMisconfigured);
        };
        if target.0.checked_add(length as u64).is_none() {
            return Err(IommuError::IommuMisconfigured);
        }
        if length == 0 {
            return Ok(());
        }
        let range = IotlbRange {
            start: iova.0,
            end,
            target: target.0,
            perm,
        };
        match map_range(&mut self.ranges, &range) {
            Ok(()) => Ok(()),
            Err(_) => Err(IommuError::OutOfMemory),
        }
    }

    /// Removes the mappings of `length` I/O addresses (vm-memory's `Iotlb::invalidate_mapping`). An error
    /// changes nothing:
    /// - IommuMisconfigured: `iova + length` doesn't fit 64 bits.
    /// - OutOfMemory: an allocation failed. It allocates only if the address behind them is mapped as one
    ///   with the last: a range without its middle is two ranges.
    pub fn invalidate_mapping(
        &mut self,
        iova: GuestAddress,
        length: usize,
    ) -> Result<(), IommuError>
        ensures { InvalidatesMapping iova.0 length self.old self.new result }
    {
        let Some(end) = iova.0.checked_add(length as u64) else {
            return Err(IommuError::IommuMisconfigured);
        };
        if length == 0 {
            return Ok(());
        }
        match take_out(&mut self.ranges, iova.0, end) {
            Ok(()) => Ok(()),
            Err(_) => Err(IommuError::OutOfMemory),
        }
    }

    /// Removes all mappings (vm-memory's `Iotlb::invalidate_all`).
    pub fn invalidate_all(&mut self)
        ensures { self.new ≡ [] }
    {
        self.ranges.clear();
    }

    /// The addresses that `length` I/O addresses are mapped to, if each of them allows `access` (vm-memory's
    /// `Iotlb::lookup`). Otherwise LookupError::Fails, or OutOfMemory: only a look-up that fails allocates.
    #[inline]
    pub fn lookup(
        &self,
        iova: GuestAddress,
        length: usize,
        access: Permissions,
    ) -> Result<IotlbIterator<'_>, LookupError>
        ensures found { LooksUp (table_held self.now) iova.0 length access result }
        ensures ranges { AreRanges self.now }
    {
        let Some(end) = iova.0.checked_add(length as u64) else {
            return Err(misses_whole(self.alloc, iova, length));
        };
        match last_up_to(&self.ranges, iova.0) {
            Some(range) if end <= range.end && range.perm.allow(access) => {
                Ok(IotlbIterator::from_range(&self.ranges, range, iova.0, end))
            }
            _ => self.lookup_pieces(iova, length, end, access),
        }
    }

    // The same, for addresses that may be in several ranges.
    fn lookup_pieces(
        &self,
        iova: GuestAddress,
        length: usize,
        end: u64,
        access: Permissions,
    ) -> Result<IotlbIterator<'_>, LookupError>
        requires { end ≡ iova.0 + length }
        ensures { LooksUp (table_held self.now) iova.0 length access result }
    {
        if is_covered(self.ranges_from(iova.0), iova.0, end, access) {
            return Ok(IotlbIterator::over(&self.ranges, iova.0, end));
        }
        match fails_among(self.alloc, self.ranges_from(iova.0), iova.0, end, access) {
            Ok(fails) => Err(LookupError::Fails(fails)),
            Err(_) => Err(LookupError::OutOfMemory),
        }
    }

    /// The addresses that the first run of `length` I/O addresses is mapped to. All of them must be mapped,
    /// and some access must be allowed at each.
    #[inline]
    pub fn first_piece(&self, iova: GuestAddress, length: usize) -> Option<MappedRange>
        requires some { 0 < length }
        requires ends { iova.0 + length < 2 ^ 64 }
        requires mapped { (access : Permissions)
            × (may_all (table_held self.now) access iova.0 length ≡ true) }
        ensures { MatchOption result ⊥ (λ p. (rest : List MappedRange)
            × (pieces (table_held self.now) iova.0 length ≡ p ∷ rest)) }
    {
        IotlbIterator::over(&self.ranges, iova.0, iova.0 + length as u64).next()
    }

    /// The addresses that `iova` and those behind it in its run, `most` in all at most, are mapped to. None
    /// if `iova` doesn't allow `access`. It allocates nothing.
    #[inline]
    pub fn piece_at(
        &self,
        iova: GuestAddress,
        most: usize,
        access: Permissions,
    ) -> Option<MappedRange>
        requires some { 0 < most }
        ensures none { result ≡ None → may_pass access (table_held self.now iova.0) ≡ false }
        ensures some { OnSome result (may_pass access (table_held self.now iova.0) ≡ true) }
        ensures piece { IfSome result (λ p. (rest : List MappedRange)
            × (pieces (table_held self.now) iova.0 most ≡ p ∷ rest)) }
        ensures fits { IfSome result (λ p. (p.base.0 + p.length < 2 ^ 64) × (iova.0 + p.length < 2 ^ 64)) }
    {
        let Some(range) = having(&self.ranges, iova.0) else {
            return None;
        };
        if !range.perm.allow(access) {
            return None;
        }
        let stop = (range.end - iova.0).min(most as u64);
        Some(MappedRange {
            base: GuestAddress(range.target + (iova.0 - range.start)),
            length: stop as usize,
        })
    }

    /// The first run of addresses without a mapping, among `length` addresses from `iova` on. None if each
    /// has a mapping, with any permission. It allocates nothing.
    pub fn first_miss(&self, iova: GuestAddress, length: usize) -> Option<IovaRange>
        requires ends { iova.0 + length < 2 ^ 64 }
        ensures { MatchOption result (missing (table_held self.now) iova.0 length ≡ [])
            (λ r. (rest : List IovaRange) × (missing (table_held self.now) iova.0 length ≡ r ∷ rest)) }
    {
        first_gap(self.ranges_from(iova.0), iova.0, iova.0 + length as u64)
    }

    // The ranges that end above `iova`.
    #[inline]
    fn ranges_from(&self, iova: u64) -> Range<'_, u64, IotlbRange>
        ensures ranges { AreRanges (values_of result) }
        ensures table { (a : ℕ) → iova ≤ a → table_held self.now a ≡ table_held (values_of result) a }
        ensures first { EndsAbove iova (values_of result) }
    {
        self.ranges.range(key_from(&self.ranges, iova)..)
    }

    /// Two tables that map each address alike have the same ranges. This is a theorem: the call does nothing.
    pub fn law_canonical(&self, other: &Iotlb)
        ensures { AreSame (table_held self.now) (table_held other.now) → self.now ≡ other.now }
    {
        let Iotlb { ranges: _mine, .. } = self;
        let Iotlb {
            ranges: _others,
            ..
        } = other;
    }
}
