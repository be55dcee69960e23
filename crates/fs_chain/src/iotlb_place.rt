//! A place for an IOMMU's table, from which it is lent.

ghost use Rattle.std.specs.Prelude.{◌≡◌, [], Some};
ghost use Rattle.fs_chain.specs.Tables.{MapsIn, UnmapsIn, are_pages, mapping_error};

use crate::error::ChainError;
use std::alloc::Global;
use vm_memory_core::{GuestAddress, IommuError, Iotlb, Permissions};

/// The bytes of a page: a table maps whole pages.
const PAGE_SIZE: u64 = vm_bitmaps::PAGE_SIZE as u64;

/// A place for an IOMMU's table: it has the table, or none while that is lent to a handle.
#[derive(Drop)]
pub struct IotlbPlace {
    /// The table.
    pub table: Option<Iotlb>,
}

// Whether `len` addresses from one on are whole pages, and there are some.
fn are_pages(iova: u64, len: u64) -> bool
    ensures { result ≡ are_pages iova len }
{
    iova % PAGE_SIZE == 0 && len % PAGE_SIZE == 0 && len != 0
}

// The error of a call that didn't change the table.
fn mapping_error(error: IommuError) -> ChainError
    ensures { result ≡ mapping_error error }
{
    match error {
        IommuError::OutOfMemory => ChainError::OutOfMemory,
        _ => ChainError::BadArgument,
    }
}

impl IotlbPlace {
    /// A place with a table that maps nothing.
    pub fn new(alloc: Global) -> IotlbPlace
        ensures { result.table ≡ Some [] }
    {
        IotlbPlace {
            table: Some(Iotlb::new(alloc)),
        }
    }

    /// Maps `len` I/O addresses to those from `guest` on, in place of earlier mappings. Errors: `WrongOrder`
    /// (no table is here), `BadArgument` (no whole pages, or an end that isn't below 2^64), `OutOfMemory`.
    pub fn map(
        &mut self,
        iova: u64,
        len: u64,
        guest: u64,
        access: Permissions,
    ) -> Result<(), ChainError>
        ensures { MapsIn self.old.table iova len guest access self.new.table result }
    {
        match &mut self.table {
            Some(table) => {
                if !are_pages(iova, len) || guest % PAGE_SIZE != 0 {
                    return Err(ChainError::BadArgument);
                }
                let (iova, guest) = (GuestAddress(iova), GuestAddress(guest));
                match table.set_mapping(iova, guest, len as usize, access) {
                    Ok(()) => Ok(()),
                    Err(error) => Err(mapping_error(error)),
                }
            }
            None => Err(ChainError::WrongOrder),
        }
    }

    /// Removes the mappings of `len` I/O addresses. Their end may be 2^64: the last address is never mapped.
    /// Errors: `WrongOrder` (no table is here), `BadArgument` (no whole pages, or an end past 2^64),
    /// `OutOfMemory`.
    pub fn unmap(&mut self, iova: u64, len: u64) -> Result<(), ChainError>
        ensures { UnmapsIn self.old.table iova len self.new.table result }
    {
        match &mut self.table {
            Some(table) => {
                if !are_pages(iova, len) || len - 1 > u64::MAX - iova {
                    return Err(ChainError::BadArgument);
                }
                let count = len.min(u64::MAX - iova) as usize;
                match table.invalidate_mapping(GuestAddress(iova), count) {
                    Ok(()) => Ok(()),
                    Err(error) => Err(mapping_error(error)),
                }
            }
            None => Err(ChainError::WrongOrder),
        }
    }
}
