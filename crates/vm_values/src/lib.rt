//! Values of guest memory: addresses, and values that are encoded in a fixed number of bytes.
#![tactic(auto)]

mod address;
mod byte_valued;
mod endian;
mod place;

pub use address::{Address, AddressValue, GuestAddress, GuestUsize, MemoryRegionAddress};
pub use byte_valued::ByteValued;
pub use endian::{Be16, Be32, Be64, Le16, Le32, Le64};
pub use place::{get, put, read_and_written, written_and_read};
