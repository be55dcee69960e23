//! Guest memory: regions of addresses over blocks of the host. Each address is translated by itself.
#![tactic(auto)]

mod backend;
mod bytes;
mod collection;
mod error;
mod guest_memory;
mod held;
mod io_ranges;
mod iommu;
mod iommu_bytes;
mod iommu_memory;
mod iommu_slices;
pub mod laws;
mod memory;
mod mmap;
mod region;
mod slice_iterator;
mod slices;
mod translated;

pub use backend::{GuestMemoryBackend, RegionIter};
pub use bytes::GuestMemoryRegionBytes;
pub use collection::GuestRegionCollection;
pub use error::{FromRangesError, GuestMemoryError, GuestRegionCollectionError, MmapRegionError};
pub use guest_memory::GuestMemoryMmap;
pub use iommu::{Iommu, TableIommu};
pub use iommu_memory::IommuMemory;
pub use iommu_slices::IommuMemorySliceIterator;
pub use memory::{GuestMemory, GuestMemorySlices};
pub use mmap::MmapRegion;
pub use region::{GuestMemoryRegion, GuestRegionMmap, HostAddress};
pub use slice_iterator::GuestMemoryBackendSliceIterator;
pub use slices::{GuestMemorySliceIterator, SlicesBeforeError};
