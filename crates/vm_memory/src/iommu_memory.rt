//! Guest memory behind an IOMMU (vm-memory's `IommuMemory`).

ghost use Rattle.std.specs.Prelude.{◌≡◌, ◌<◌, ◌↔◌, IfOk, refl};
ghost use Rattle.vm_memory.specs.Layout.{IsLayout};
ghost use Rattle.vm_memory.specs.Behind.{HoldsThrough, seen_through};
ghost use Rattle.vm_memory.specs.Translated.{holds-same, left_behind, left-off};

use crate::backend::GuestMemoryBackend;
use crate::collection::GuestRegionCollection;
use crate::error::GuestMemoryError;
use crate::io_ranges::{io_reached, push_io, read_io};
use crate::iommu::Iommu;
use crate::iommu_slices::IommuMemorySliceIterator;
use crate::memory::{GuestMemory, GuestMemorySlices};
use crate::region::GuestMemoryRegion;
use crate::slice_iterator::GuestMemoryBackendSliceIterator;
use std::alloc::{AllocError, Global};
use vm_memory_core::{GuestAddress, HeldIn, HostBlocks, IommuError, Permissions, Windows};

/// A backend behind an IOMMU: a device uses I/O addresses while the IOMMU is on, and physical addresses
/// while it is off (vm-memory's `IommuMemory`).
#[derive(Drop)]
pub struct IommuMemory<M: GuestMemoryBackend + Drop, I: Iommu + Drop> {
    alloc: Global,
    backend: M,
    iommu: I,
    use_iommu: bool,
    io_bitmap: usize,
}

impl<M: GuestMemoryBackend + Drop, I: Iommu + Drop> IommuMemory<M, I> {
    /// A backend behind an IOMMU that is on or off. `io_bitmap` is the number of the set of I/O pages
    /// that writes mark while it is on.
    pub fn new(
        alloc: Global,
        backend: M,
        iommu: I,
        use_iommu: bool,
        io_bitmap: usize,
    ) -> IommuMemory<M, I>
        ensures backend { result.backend ≡ backend }
        ensures iommu { result.iommu ≡ iommu }
        ensures enabled { result.use_iommu ≡ use_iommu }
        ensures io_bitmap { result.io_bitmap ≡ io_bitmap }
    {
        IommuMemory {
            alloc,
            backend,
            iommu,
            use_iommu,
            io_bitmap,
        }
    }

    /// The number of the set of I/O pages, of 4096 addresses each, that writes mark while the IOMMU is on
    /// (vm-memory's `IommuMemory::bitmap`).
    pub fn bitmap(&self) -> usize
        ensures { result ≡ self.now.io_bitmap }
    {
        self.io_bitmap
    }

    /// Turns the IOMMU on or off.
    pub fn set_iommu_enabled(&mut self, enabled: bool)
        ensures { self.new ≡ record self.old { use_iommu = enabled } }
    {
        self.use_iommu = enabled;
    }

    /// Whether the IOMMU is on.
    pub fn get_iommu_enabled(&self) -> bool
        ensures { result ≡ self.now.use_iommu }
    {
        self.use_iommu
    }

    /// The IOMMU.
    pub fn iommu(&self) -> &I
        ensures { result.now ≡ self.now.iommu }
    {
        &self.iommu
    }

    /// The backend: the memory by physical addresses, whether the IOMMU is on or off.
    pub fn get_backend(&self) -> &M
        ensures { result.now ≡ self.now.backend }
    {
        &self.backend
    }

    /// Replaces the backend. The IOMMU and its set of I/O pages stay.
    pub fn set_backend(&mut self, backend: M)
        ensures { self.new ≡ record self.old { backend = backend } }
    {
        self.backend = backend;
    }
}

impl<M: GuestMemoryBackend + Drop, I: Iommu + Clone> IommuMemory<M, I> {
    /// Another backend behind a clone of the IOMMU, with the same set of I/O pages (vm-memory's
    /// `IommuMemory::with_replaced_backend`). AllocError if the IOMMU can't be cloned.
    pub fn with_replaced_backend(&self, new_backend: M) -> Result<IommuMemory<M, I>, AllocError>
        ensures backend { IfOk result (λ m. m.backend ≡ new_backend) }
        ensures iommu { IfOk result (λ m. I.is_clone self.now.iommu m.iommu) }
        ensures enabled { IfOk result (λ m. m.use_iommu ≡ self.now.use_iommu) }
        ensures io_bitmap { IfOk result (λ m. m.io_bitmap ≡ self.now.io_bitmap) }
    {
        let iommu = self.iommu.clone()?;
        Ok(IommuMemory {
            alloc: self.alloc,
            backend: new_backend,
            iommu,
            use_iommu: self.use_iommu,
            io_bitmap: self.io_bitmap,
        })
    }
}

impl<R: GuestMemoryRegion, I: Iommu + Drop> HeldIn for IommuMemory<GuestRegionCollection<R>, I> {
    ghost IsHeld = { λ m h. HoldsThrough I.number m h };

    ghost IsSound = { λ m. IsLayout m.backend };

    fn is_held<H: HostBlocks>(&self, h: &H) -> bool {
        let backend = self.backend.is_held(h);
        let table = h.has_table(self.iommu.table());
        let io_bitmap = h.has_io_bitmap(self.io_bitmap);
        backend && table && io_bitmap
    }
}

impl<R: GuestMemoryRegion, I: Iommu + Drop> GuestMemory
    for IommuMemory<GuestRegionCollection<R>, I> {
    type PhysicalMemory = GuestRegionCollection<R>;

    ghost memory = { λ m h. seen_through I.number m h };

    ghost longest = { λ m h access a. left_behind m.use_iommu h m.backend (I.number m.iommu) a };

    ghost over = { λ m h g. refl };

    ghost by_layout = { λ m h access a off. left-off m.use_iommu _ _ off };

    ghost by_shape = { λ m h g same held. holds-same m.backend (I.number m.iommu) m.io_bitmap h g same held };

    fn check_range<H: HostBlocks>(
        &self,
        alloc: Global,
        h: &H,
        addr: GuestAddress,
        count: usize,
        access: Permissions,
    ) -> Result<bool, AllocError> {
        if !self.use_iommu {
            return self.backend.check_range(alloc, h, addr, count, access);
        }
        let table = self.iommu.table();
        let set = self.io_bitmap;
        match self.iommu.translate(h, addr, count, access) {
            Ok(mapped) => {
                let reached = io_reached(
                    &self.backend,
                    h,
                    table,
                    set,
                    access,
                    addr.0,
                    count,
                    mapped,
                );
                Ok(reached == count)
            }
            Err(IommuError::OutOfMemory) => Err(AllocError),
            Err(_) => Ok(false),
        }
    }

    fn get_slices<'a, H: HostBlocks>(
        &'a self,
        _alloc: Global,
        h: &'a H,
        addr: GuestAddress,
        count: usize,
        access: Permissions,
    ) -> Result<GuestMemorySlices<'a, GuestRegionCollection<R>>, GuestMemoryError> {
        if !self.use_iommu {
            let slices = GuestMemoryBackendSliceIterator::new(&self.backend, addr, count);
            return Ok(GuestMemorySlices::Backend(slices));
        }
        let table = self.iommu.table();
        let set = self.io_bitmap;
        match self.iommu.translate(h, addr, count, access) {
            Ok(_) => Ok(GuestMemorySlices::Iommu(IommuMemorySliceIterator::new(
                &self.backend,
                h,
                table,
                set,
                access,
                addr,
                count,
            ))),
            Err(IommuError::OutOfMemory) => Err(GuestMemoryError::OutOfMemory),
            Err(error) => Err(GuestMemoryError::IommuError(error)),
        }
    }

    fn physical_memory(&self) -> Option<&GuestRegionCollection<R>> {
        if self.use_iommu {
            None
        } else {
            Some(&self.backend)
        }
    }

    fn read_range<H: HostBlocks>(
        &self,
        alloc: Global,
        h: &H,
        addr: GuestAddress,
        buffer: &mut [u8],
    ) -> Result<bool, AllocError> {
        if !self.use_iommu {
            return self.backend.read_range(alloc, h, addr, buffer);
        }
        let table = self.iommu.table();
        let set = self.io_bitmap;
        let asked = buffer.len();
        match self.iommu.translate(h, addr, asked, Permissions::Read) {
            Ok(mapped) => {
                Ok(read_io(&self.backend, h, table, set, buffer, addr.0, mapped) == asked)
            }
            Err(IommuError::OutOfMemory) => Err(AllocError),
            Err(_) => Ok(false),
        }
    }

    fn push_windows<H: HostBlocks>(
        &self,
        alloc: Global,
        h: &H,
        addr: GuestAddress,
        count: usize,
        access: Permissions,
        windows: &mut Windows,
    ) -> Result<bool, AllocError> {
        if !self.use_iommu {
            return self
                .backend
                .push_windows(alloc, h, addr, count, access, windows);
        }
        let table = self.iommu.table();
        let set = self.io_bitmap;
        match self.iommu.translate(h, addr, count, access) {
            Ok(mapped) => {
                push_io(
                    &self.backend,
                    h,
                    table,
                    set,
                    access,
                    addr.0,
                    count,
                    mapped,
                    windows,
                )
            }
            Err(IommuError::OutOfMemory) => Err(AllocError),
            Err(_) => Ok(false),
        }
    }
}
