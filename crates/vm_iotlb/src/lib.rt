//! An IOMMU's table: the address that each I/O address is mapped to, and its permission.
#![tactic(auto)]

mod error;
mod iotlb;
mod iova;
mod lookup;
mod permissions;
mod range;
mod ranges;

pub use error::IommuError;
pub use iotlb::Iotlb;
pub use iova::{IovaRange, MappedRange};
pub use lookup::{IotlbFails, IotlbIterator, LookupError};
pub use permissions::Permissions;
