//! The errors of an IOMMU.

ghost use Rattle.std.specs.Prelude.{◌≡◌};

use crate::iova::IovaRange;
use thiserror::Error;

/// An error of a translation, or of a change of the table (vm-memory's `iommu::Error`).
#[derive(Clone, Copy, Debug, PartialEq, Eq, Error)]
pub enum IommuError {
    /// Some of the addresses aren't mapped with the permission.
    #[error("cannot resolve {:#x} bytes at I/O address {:#x}: not mapped throughout with the permission", .0.length, .0.base.0)]
    CannotResolve(IovaRange),
    /// Kept for vm-memory's name, but never returned: a look-up of several runs returns each of them.
    #[error("the I/O addresses are mapped in pieces")]
    Fragmented,
    /// The end of a range doesn't fit 64 bits, or is below its start.
    #[error("IOMMU misconfigured: the end of a range does not fit 64 bits, or lies before its start")]
    IommuMisconfigured,
    #[error("out of memory")]
    OutOfMemory,
}

impl IommuError {
    ghost use Rattle.vm_iotlb.specs.Numbers.{iommu_error_number};

    /// The error's number: 1 to 4, in the order above.
    pub fn number(&self) -> u8
        ensures { result ≡ iommu_error_number self.now }
    {
        match self {
            IommuError::CannotResolve(_) => 1,
            IommuError::Fragmented => 2,
            IommuError::IommuMisconfigured => 3,
            IommuError::OutOfMemory => 4,
        }
    }
}
