//! Errors of making and of reaching guest memory.

ghost use Rattle.std.specs.Prelude.{◌≡◌};

use thiserror::Error;
use vm_memory_core::IommuError;
use vm_values::GuestAddress;

/// Why no block was made for a region (vm-memory's `MmapRegionError`).
#[derive(Clone, Copy, Debug, PartialEq, Eq, Error)]
pub enum MmapRegionError {
    /// The size is 0.
    #[error("a region is empty")]
    Mmap,
    #[error("out of memory")]
    OutOfMemory,
}

impl MmapRegionError {
    ghost use Rattle.vm_memory.specs.Numbers.{mmap_number};

    /// The error's number, 1 or 2.
    pub fn number(&self) -> u8
        ensures { result ≡ mmap_number self.now }
    {
        match self {
            MmapRegionError::Mmap => 1,
            MmapRegionError::OutOfMemory => 2,
        }
    }
}

/// Why regions are no layout, or a layout could not change (vm-memory's `GuestRegionCollectionError`).
#[derive(Clone, Copy, Debug, PartialEq, Eq, Error)]
pub enum GuestRegionCollectionError {
    /// The list has no region, or no region has this first address and size.
    #[error("there is no such region, or none at all")]
    NoMemoryRegion,
    /// Two regions have an address in common.
    #[error("two regions have an address in common")]
    MemoryRegionOverlap,
    /// A region begins below the one before it.
    #[error("the regions do not ascend")]
    UnsortedMemoryRegions,
    #[error("out of memory")]
    OutOfMemory,
}

impl GuestRegionCollectionError {
    ghost use Rattle.vm_memory.specs.Numbers.{collection_number};

    /// The error's number, 1 to 4.
    pub fn number(&self) -> u8
        ensures { result ≡ collection_number self.now }
    {
        match self {
            GuestRegionCollectionError::NoMemoryRegion => 1,
            GuestRegionCollectionError::MemoryRegionOverlap => 2,
            GuestRegionCollectionError::UnsortedMemoryRegions => 3,
            GuestRegionCollectionError::OutOfMemory => 4,
        }
    }
}

/// Why ranges can't be made guest memory (vm-memory's `FromRangesError`).
#[derive(Clone, Copy, Debug, PartialEq, Eq, Error)]
pub enum FromRangesError {
    /// The regions are no layout.
    #[error("{0}")]
    Collection(GuestRegionCollectionError),
    /// A range is empty.
    #[error("{0}")]
    MmapRegion(MmapRegionError),
    /// A range ends past 2^64.
    #[error("a region ends past the last address")]
    InvalidGuestRegion,
    #[error("out of memory")]
    OutOfMemory,
}

impl FromRangesError {
    ghost use Rattle.vm_memory.specs.Numbers.{ranges_number};

    /// The error's number, 1 to 4.
    pub fn number(&self) -> u8
        ensures { result ≡ ranges_number self.now }
    {
        match self {
            FromRangesError::Collection(_) => 1,
            FromRangesError::MmapRegion(_) => 2,
            FromRangesError::InvalidGuestRegion => 3,
            FromRangesError::OutOfMemory => 4,
        }
    }
}

/// Why guest memory isn't read or written (vm-memory's `GuestMemoryError`).
#[derive(Clone, Copy, Debug, PartialEq, Eq, Error)]
pub enum GuestMemoryError {
    /// The first address of the access has no place.
    #[error("no region has the address {}", .0.0)]
    InvalidGuestAddress(GuestAddress),
    /// Only the first `completed` of the `expected` bytes have a place. These, at least one, were read
    /// or written.
    #[error("only {completed} of {expected} bytes could be accessed")]
    PartialBuffer { expected: usize, completed: usize },
    /// The bytes of the access end past their region.
    #[error("past the end of the region")]
    InvalidBackendAddress,
    /// Never returned, as a region's last address always fits. It is here for vm-memory's name.
    #[error("the address does not fit 64 bits")]
    GuestAddressOverflow,
    /// The I/O addresses can't be translated.
    #[error("{0}")]
    IommuError(IommuError),
    /// Never returned, as each region has its block. It is here for vm-memory's name.
    #[error("no host address")]
    HostAddressNotAvailable,
    #[error("out of memory")]
    OutOfMemory,
}

impl GuestMemoryError {
    ghost use Rattle.vm_memory.specs.Numbers.{memory_number};

    /// The error's number, 1 to 7.
    pub fn number(&self) -> u8
        ensures { result ≡ memory_number self.now }
    {
        match self {
            GuestMemoryError::InvalidGuestAddress(_) => 1,
            GuestMemoryError::PartialBuffer { .. } => 2,
            GuestMemoryError::InvalidBackendAddress => 3,
            GuestMemoryError::GuestAddressOverflow => 4,
            GuestMemoryError::IommuError(_) => 5,
            GuestMemoryError::HostAddressNotAvailable => 6,
            GuestMemoryError::OutOfMemory => 7,
        }
    }
}
