//! An IOMMU's table, which the caller lends to a handle, and the addresses that it lacks.

ghost use Rattle.std.specs.Prelude.{◌≡◌, All, OnOk, Some, length, slice_get, true, false};
ghost use Rattle.fs_regions.specs.Places.{places_in};
ghost use Rattle.fs_regions.specs.Using.{IsUntouched};
ghost use Rattle.fs_chain.specs.HoldsAround.{RemapsTable};
ghost use Rattle.fs_chain.specs.Orders.{is_out};
ghost use Rattle.fs_chain.specs.Tables.{ExchangesTable, ExchangesWith, is_popping, miss_at};

use crate::chain_handle::ChainHandle;
use crate::error::ChainError;
use crate::iotlb_place::IotlbPlace;
use crate::state::ChainState;
use fs_queue::Descriptor;
use fs_regions::{missing_from, uses};
use vm_memory_core::{Iotlb, IovaRange, Permissions};

impl ChainHandle {
    // Whether a pop is under way.
    fn is_popping(&self) -> bool
        ensures { result ≡ is_popping self.now.state }
    {
        matches!(self.state, ChainState::Popping(_, _, _))
    }

    /// Exchanges the IOMMU's table for another one, or for none, and returns the one that was there. While a
    /// pop is under way this is refused, so that one table holds for all of it: the given one is handed back.
    ///
    /// Once a handle had a table, its addresses are I/O addresses until its memory is set again. While the
    /// table is taken away, none of them is mapped.
    #[tactic(auto, using(crate::proofs::HoldsAround::remaps_table))]
    pub fn exchange_table(&mut self, table: Option<Iotlb>) -> Result<Option<Iotlb>, Option<Iotlb>>
        ensures exchanged { ExchangesTable self.old self.new table result }
        ensures step { OnOk result (RemapsTable self.old self.new table) }
    {
        if self.is_popping() {
            return Err(table);
        }
        Ok(self.regions.exchange_table(self.alloc, table))
    }

    /// Exchanges the IOMMU's table with that of a place. `ChainInFlight` while a pop is under way.
    #[tactic(auto, using(crate::proofs::HoldsAround::remaps_table))]
    pub fn exchange_with(&mut self, place: &mut IotlbPlace) -> Result<(), ChainError>
        ensures exchanged { ExchangesWith self.old self.new place.old place.new result }
        ensures step { OnOk result (RemapsTable self.old self.new place.old.table) }
    {
        if self.is_popping() {
            return Err(ChainError::ChainInFlight);
        }
        let table = self.regions.exchange_table(self.alloc, place.table.take());
        place.table = table;
        Ok(())
    }

    /// How many descriptors the last pop gathered, up to a miss if there was one. It has a meaning after a
    /// miss, and while a chain without a fault is in flight.
    pub fn gathered(&self) -> usize
        ensures { result ≡ length self.now.descriptors.items }
    {
        self.descriptors.len()
    }

    /// The first addresses of a gathered descriptor's buffer, from an address on, that the table doesn't
    /// map, and the access that the buffer needs. None if all are mapped, if one of them is in the last page
    /// of addresses, or if there is no such descriptor.
    pub fn missing_at(&self, index: usize, from: u64) -> Option<(IovaRange, Permissions)>
        ensures { result ≡ miss_at (places_in self.now.regions)
            (slice_get self.now.descriptors.items index) from }
    {
        let descriptors: &[Descriptor] = &self.descriptors;
        match descriptors.get(index) {
            Some(descriptor) => missing_from(&self.regions, descriptor, from),
            None => None,
        }
    }

    /// Whether the chain in flight uses one of `len` addresses from one on. If not, the caller may change or
    /// remove their mappings: the chain's own stay as they were.
    pub fn uses(&self, iova: u64, len: u64) -> bool
        ensures used { result ≡ true
            → (is_out self.now.state ≡ true) × (All (IsUntouched iova len) self.now.descriptors.items → ⊥) }
        ensures unused { result ≡ false
            → is_out self.now.state ≡ true
            → All (IsUntouched iova len) self.now.descriptors.items }
    {
        if !self.is_out() {
            return false;
        }
        uses(&self.descriptors, iova, len)
    }
}
