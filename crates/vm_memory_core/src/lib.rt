//! Host memory: numbered blocks of bytes with their dirty pages, and windows over them.
#![tactic(auto)]

mod access;
mod block;
mod copy;
mod element;
mod error;
mod held;
mod host;
mod host_blocks;
mod io_pages;
mod memory;
mod unmarked;
mod volatile;
mod window;

pub use access::Bytes;
pub use copy::put_at;
pub use element::{VolatileArrayRef, VolatileRef};
pub use error::{VolatileMemoryError, compute_offset};
pub use held::HeldIn;
pub use host::HostMemory;
pub use host_blocks::HostBlocks;
pub use io_pages::IoPages;
pub use memory::VolatileMemory;
pub use vm_atomic_bitmaps::{AtomicBitmap, BitmapPass};
pub use vm_bitmaps::{BaseSlice, Bitmap, NewBitmap, PageBitmap, RefSlice};
pub use vm_iotlb::{
    IommuError, Iotlb, IotlbFails, IotlbIterator, IovaRange, LookupError, MappedRange, Permissions,
};
pub use vm_values::{
    Address, AddressValue, Be16, Be32, Be64, ByteValued, GuestAddress, GuestUsize, Le16, Le32,
    Le64, MemoryRegionAddress,
};
pub use volatile::ReadVolatile;
pub use window::{IoMarks, VolatileSlice, Windows};
