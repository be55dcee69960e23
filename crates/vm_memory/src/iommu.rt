//! The IOMMU that translates the addresses of a device (vm-memory's `Iommu`).

ghost use Rattle.std.specs.Prelude.{◌≡◌, ℕ};
ghost use Rattle.vm_memory.specs.Memory.{table_in};
ghost use Rattle.vm_memory.specs.Translating.{Translates};

use vm_memory_core::{
    GuestAddress, HostBlocks, IommuError, IotlbIterator, IovaRange, LookupError, Permissions,
};

/// An IOMMU: it translates I/O addresses by a table of the host (vm-memory's `Iommu`).
pub trait Iommu {
    // the number of its table
    ghost number: { Self → ℕ };

    /// The number of its table in the host.
    fn table(&self) -> usize
        ensures { result ≡ number self.now };

    /// The pieces, each as long as possible, to which `length` I/O addresses are mapped (vm-memory's
    /// `Iommu::translate`). CannotResolve with the asked range unless each is mapped with the permission
    /// and their end fits 64 bits. Only a call that fails allocates: OutOfMemory if it can't.
    fn translate<'a, H: HostBlocks>(
        &self,
        h: &'a H,
        iova: GuestAddress,
        length: usize,
        access: Permissions,
    ) -> Result<IotlbIterator<'a>, IommuError>
        ensures { Translates (table_in (H.host h.now) (number self.now)) iova.0 length access result };
}

/// The plain `Iommu`: it keeps only the number of its table in the host. A missing table maps nothing.
#[derive(Clone, Copy, Debug, PartialEq, Eq)]
pub struct TableIommu {
    table: usize,
}

impl TableIommu {
    /// The IOMMU of this table of the host.
    pub fn new(table: usize) -> TableIommu
        ensures { result.table ≡ table }
    {
        TableIommu { table }
    }
}

impl Iommu for TableIommu {
    ghost number = { λ i. i.table };

    #[inline]
    fn table(&self) -> usize {
        self.table
    }

    #[inline]
    fn translate<'a, H: HostBlocks>(
        &self,
        h: &'a H,
        iova: GuestAddress,
        length: usize,
        access: Permissions,
    ) -> Result<IotlbIterator<'a>, IommuError> {
        let asked = IovaRange { base: iova, length };
        let Some(table) = h.table(self.table) else {
            if length == 0 {
                return Ok(IotlbIterator::default());
            }
            return Err(IommuError::CannotResolve(asked));
        };
        match table.lookup(iova, length, access) {
            Ok(pieces) => Ok(pieces),
            Err(LookupError::Fails(_)) => Err(IommuError::CannotResolve(asked)),
            Err(LookupError::OutOfMemory) => Err(IommuError::OutOfMemory),
        }
    }
}
