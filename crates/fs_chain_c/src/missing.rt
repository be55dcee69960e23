//! The addresses that an IOMMU's table lacks, and those of it that a chain uses.

ghost use Rattle.std.specs.Prelude.{◌≡◌};
ghost use Rattle.fs_chain_c.specs.Iotlbs.{FillsMiss, ReportsUse, no_miss};

use crate::access::access_number;
use crate::popping::MISS;
use fs_chain::ChainHandle;

/// The descriptor has no miss from there on.
const NO_MISS: u32 = 0;

/// No descriptor has this index.
const NO_DESCRIPTOR: u32 = 33;

/// I/O addresses that aren't mapped in the table.
#[repr(C)]
#[derive(Clone, Copy)]
pub struct FsMiss {
    /// The first one.
    pub at: u64,
    /// How many there are.
    pub len: u64,
    /// The number of the access that they are needed for.
    pub access: u32,
}

impl FsMiss {
    /// Neither addresses nor an access.
    pub fn nothing() -> FsMiss
        ensures { result ≡ no_miss }
    {
        FsMiss {
            at: 0,
            len: 0,
            access: 0,
        }
    }
}

/// The first miss of a gathered descriptor from an address on, and a status.
pub fn miss_of(handle: &ChainHandle, index: usize, from: u64) -> (FsMiss, u32)
    ensures { FillsMiss handle.now index from result.1 result.0 }
{
    if handle.gathered() <= index {
        return (FsMiss::nothing(), NO_DESCRIPTOR);
    }
    match handle.missing_at(index, from) {
        Some((range, access)) => {
            let miss = FsMiss {
                at: range.base.0,
                len: range.length as u64,
                access: access_number(access),
            };
            (miss, MISS)
        }
        None => (FsMiss::nothing(), NO_MISS),
    }
}

/// Whether the chain in flight uses one of some addresses: 1 or 0.
pub fn use_of(handle: &ChainHandle, iova: u64, len: u64) -> u8
    ensures { ReportsUse handle.now iova len result }
{
    if handle.uses(iova, len) { 1 } else { 0 }
}
