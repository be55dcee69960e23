//! Bytes of guest memory behind an IOMMU, by address (vm-memory's `Bytes`).

ghost use Rattle.std.specs.Prelude.{◌≡◌, IfErr, IfOk, length, true};
ghost use Rattle.vm_iotlb.specs.AddressRuns.{pieces};
ghost use Rattle.vm_iotlb.specs.declared.permissions.Permissions.TheVariants.{Read, Write};
ghost use Rattle.vm_memory_core.specs.Host.{shape};
ghost use Rattle.vm_memory_core.specs.Window.{Stores};
ghost use Rattle.vm_memory.specs.Bytes.{MayReach, places_at};
ghost use Rattle.vm_memory.specs.Layout.{HostHolds};
ghost use Rattle.vm_memory.specs.Memory.{circular, is_mapped, location, reached, read_first, table_in};
ghost use Rattle.vm_memory.specs.Behind.{HoldsThrough, seen_through};
ghost use Rattle.vm_memory.specs.RangeAnswers.{CannotGive};
ghost use Rattle.vm_memory.specs.ReachedBytesProof.{length-may_reach};
ghost use Rattle.vm_memory.specs.declared.error.GuestMemoryError.TheVariants.{PartialBuffer};

use crate::bytes::some_of;
use crate::collection::GuestRegionCollection;
use crate::error::GuestMemoryError;
use crate::guest_memory::outcome;
use crate::io_ranges::{read_io, write_io};
use crate::iommu::Iommu;
use crate::iommu_memory::IommuMemory;
use crate::region::GuestMemoryRegion;
use vm_memory_core::{
    Bytes, GuestAddress, HostMemory, IommuError, IotlbIterator, NewBitmap, Permissions,
};

impl<R: GuestMemoryRegion, I: Iommu + Drop> IommuMemory<GuestRegionCollection<R>, I> {
    // The pieces to which addresses are mapped, none while the IOMMU is off. An error unless each is
    // mapped with the permission.
    fn translate<'a, B: NewBitmap>(
        &self,
        h: &'a HostMemory<B>,
        addr: GuestAddress,
        count: usize,
        access: Permissions,
    ) -> Result<IotlbIterator<'a>, GuestMemoryError>
        ensures pieces { IfOk result (λ all. self.now.use_iommu ≡ true
            → all ≡ pieces (table_in h.now (I.number self.now.iommu)) addr.0 count) }
        ensures mapped { IfOk result
            (λ _. is_mapped (seen_through I.number self.now h.now) access addr.0 count ≡ true) }
        ensures refused { IfErr result
            (CannotGive (seen_through I.number self.now h.now) access addr.0 count) }
    {
        if !self.get_iommu_enabled() {
            return Ok(IotlbIterator::default());
        }
        match self.iommu().translate(h, addr, count, access) {
            Ok(mapped) => Ok(mapped),
            Err(IommuError::OutOfMemory) => Err(GuestMemoryError::OutOfMemory),
            Err(error) => Err(GuestMemoryError::IommuError(error)),
        }
    }

    // Checks that the IOMMU is off, or that it maps each of `count` addresses with the permission.
    fn check_mapped<B: NewBitmap>(
        &self,
        h: &HostMemory<B>,
        addr: GuestAddress,
        count: usize,
        access: Permissions,
    ) -> Result<(), GuestMemoryError>
        ensures mapped { IfOk result
            (λ _. is_mapped (seen_through I.number self.now h.now) access addr.0 count ≡ true) }
        ensures refused { IfErr result
            (CannotGive (seen_through I.number self.now h.now) access addr.0 count) }
    {
        match self.translate(h, addr, count, access) {
            Ok(_) => Ok(()),
            Err(error) => Err(error),
        }
    }

    // Reads bytes from an address on, up to the first without a place, and returns their number. The
    // addresses are mapped to the pieces `mapped`.
    fn read_mapped<B: NewBitmap>(
        &self,
        h: &HostMemory<B>,
        buffer: &mut [u8],
        addr: GuestAddress,
        mapped: IotlbIterator<'_>,
    ) -> usize
        requires pieces { self.now.use_iommu ≡ true
            → mapped ≡ pieces (table_in h.now (I.number self.now.iommu)) addr.0 (length buffer.old) }
        requires held { HostHolds h.now self.now.backend }
        requires mapped { is_mapped (seen_through I.number self.now h.now) Read addr.0 (length buffer.old)
            ≡ true }
        ensures count { result ≡ reached (location (seen_through I.number self.now h.now) Read)
            (circular addr.0 (length buffer.old)) }
        ensures bytes { buffer.new ≡ read_first (seen_through I.number self.now h.now)
            (circular addr.0 (length buffer.old)) result buffer.old }
    {
        let backend = self.get_backend();
        if self.get_iommu_enabled() {
            read_io(
                backend,
                h,
                self.iommu().table(),
                self.bitmap(),
                buffer,
                addr.0,
                mapped,
            )
        } else {
            backend.read_some(h, buffer, addr.0)
        }
    }

    // Writes bytes that are mapped throughout, up to the first without a place, and returns their
    // number.
    fn write_mapped<B: NewBitmap>(
        &self,
        h: &mut HostMemory<B>,
        bytes: &[u8],
        addr: GuestAddress,
    ) -> usize
        requires held { HostHolds h.old self.now.backend }
        requires mapped { is_mapped (seen_through I.number self.now h.old) Write addr.0 (length bytes.now)
            ≡ true }
        ensures count { result ≡ reached (location (seen_through I.number self.now h.old) Write)
            (circular addr.0 (length bytes.now)) }
        ensures stored { let m = seen_through I.number self.now h.old in
            Stores h.old h.new (places_at (location m Write) (circular addr.0 (length bytes.now))) bytes.now }
        ensures shape { shape h.new ≡ shape h.old }
    {
        let backend = self.get_backend();
        if self.get_iommu_enabled() {
            write_io(
                backend,
                h,
                self.iommu().table(),
                self.bitmap(),
                bytes,
                addr.0,
            )
        } else {
            backend.write_some(h, bytes, addr.0)
        }
    }
}

/// A guest's bytes by address. While the IOMMU is on, a range that isn't mapped throughout is refused
/// before any byte moves. While it is off, 0 follows the greatest address.
impl<R: GuestMemoryRegion, I: Iommu + Drop> Bytes<GuestAddress>
    for IommuMemory<GuestRegionCollection<R>, I> {
    type E = GuestMemoryError;

    ghost IsHeld = { λ m h. HoldsThrough I.number m h };

    ghost Reaches = { λ m h a n p places. MayReach (seen_through I.number m h) p a n places };

    ghost partial = { λ n k. PartialBuffer n k };

    ghost at_most = { λ m h a n p places may. length-may_reach (seen_through I.number m h) p a n places may };

    fn read<B: NewBitmap>(
        &self,
        h: &HostMemory<B>,
        buf: &mut [u8],
        addr: GuestAddress,
    ) -> Result<usize, GuestMemoryError> {
        let asked = buf.len();
        match self.translate(h, addr, asked, Permissions::Read) {
            Ok(mapped) => {
                let completed = self.read_mapped(h, buf, addr, mapped);
                some_of(addr, asked, completed)
            }
            Err(error) => Err(error),
        }
    }

    fn write<B: NewBitmap>(
        &self,
        h: &mut HostMemory<B>,
        buf: &[u8],
        addr: GuestAddress,
    ) -> Result<usize, GuestMemoryError> {
        match self.check_mapped(h, addr, buf.len(), Permissions::Write) {
            Ok(()) => {
                let completed = self.write_mapped(h, buf, addr);
                some_of(addr, buf.len(), completed)
            }
            Err(error) => Err(error),
        }
    }

    fn read_slice<B: NewBitmap>(
        &self,
        h: &HostMemory<B>,
        buf: &mut [u8],
        addr: GuestAddress,
    ) -> Result<(), GuestMemoryError> {
        let asked = buf.len();
        match self.translate(h, addr, asked, Permissions::Read) {
            Ok(mapped) => {
                let completed = self.read_mapped(h, buf, addr, mapped);
                outcome(addr, asked, completed)
            }
            Err(error) => Err(error),
        }
    }

    fn write_slice<B: NewBitmap>(
        &self,
        h: &mut HostMemory<B>,
        buf: &[u8],
        addr: GuestAddress,
    ) -> Result<(), GuestMemoryError> {
        match self.check_mapped(h, addr, buf.len(), Permissions::Write) {
            Ok(()) => {
                let completed = self.write_mapped(h, buf, addr);
                outcome(addr, buf.len(), completed)
            }
            Err(error) => Err(error),
        }
    }
}
