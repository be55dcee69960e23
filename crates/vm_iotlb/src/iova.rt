//! Ranges of I/O addresses, and of the addresses that they are mapped to.

ghost use Rattle.vm_iotlb.specs.Numbers.{IsIovaRange};

use crate::error::IommuError;
use std::ops::Range;
use vm_values::GuestAddress;

/// Consecutive I/O addresses (vm-memory's `IovaRange`).
#[derive(Clone, Copy, Debug, PartialEq, Eq)]
pub struct IovaRange {
    /// The first address.
    pub base: GuestAddress,
    /// The number of addresses, of one byte each.
    pub length: usize,
}

impl TryFrom<Range<u64>> for IovaRange {
    type Error = IommuError;

    ghost try_from_gives = { IsIovaRange };

    fn try_from(range: Range<u64>) -> Result<IovaRange, IommuError> {
        if range.end < range.start {
            return Err(IommuError::IommuMisconfigured);
        }
        Ok(IovaRange {
            base: GuestAddress(range.start),
            length: (range.end - range.start) as usize,
        })
    }
}

/// Consecutive addresses that I/O addresses are mapped to (vm-memory's `MappedRange`).
#[derive(Clone, Copy, Debug, PartialEq, Eq)]
pub struct MappedRange {
    /// The first address.
    pub base: GuestAddress,
    /// The number of addresses, of one byte each.
    pub length: usize,
}
