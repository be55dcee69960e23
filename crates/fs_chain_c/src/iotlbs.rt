//! An IOMMU's table that C keeps.

ghost use Rattle.std.specs.Prelude.{◌≡◌};
ghost use Rattle.fs_chain_c.specs.Iotlbs.{ExchangesPlace, MakesTable, MapsByNumber, UnmapsPlace, access_of};
ghost use Rattle.fs_chain_c.specs.Iotlbs.{status_of};

use crate::access::access_of;
use crate::iotlb_handle::FsIotlb;
use fs_chain::{ChainError, ChainHandle, IotlbPlace};
use memory_requests::boxed;
use std::alloc::Global;

// The status of a result: 0, or the error's number.
fn status_of(returned: Result<(), ChainError>) -> u32
    ensures { result ≡ status_of returned }
{
    match returned {
        Ok(()) => 0,
        Err(error) => u32::from(error.number()),
    }
}

/// Makes a table that maps nothing, in place of the one that was there. Zeros get their box.
pub fn renew(alloc: Global, iotlb: &mut FsIotlb) -> u32
    ensures { MakesTable iotlb.old.value result iotlb.new.value }
{
    match iotlb.take(alloc) {
        Some(mut place) => {
            *place = IotlbPlace::new(alloc);
            *iotlb = FsIotlb::of_box(place);
            0
        }
        None => match boxed(alloc, IotlbPlace::new(alloc)) {
            Ok(place) => {
                *iotlb = FsIotlb::of_box(place);
                0
            }
            Err(_) => u32::from(ChainError::OutOfMemory.number()),
        },
    }
}

/// Maps addresses in a table, for the access of this number.
pub fn map_in(place: &mut IotlbPlace, iova: u64, len: u64, guest: u64, access: u32) -> u32
    ensures { MapsByNumber place.old iova len guest (access_of access) result place.new }
{
    match access_of(access) {
        Some(access) => status_of(place.map(iova, len, guest, access)),
        None => u32::from(ChainError::BadArgument.number()),
    }
}

/// Removes the mappings of addresses from a table.
pub fn unmap_in(place: &mut IotlbPlace, iova: u64, len: u64) -> u32
    ensures { UnmapsPlace place.old iova len result place.new }
{
    status_of(place.unmap(iova, len))
}

/// Exchanges the tables of a handle and a place.
pub fn exchange(handle: &mut ChainHandle, place: &mut IotlbPlace) -> u32
    ensures { ExchangesPlace handle.old place.old result handle.new place.new }
{
    status_of(handle.exchange_with(place))
}
