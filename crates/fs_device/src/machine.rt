//! A guest's memory and the device that serves it, as one machine.

ghost use Rattle.std.specs.Prelude.{◌≡◌};
ghost use Rattle.vm_memory.specs.Translated.{HoldsBehind};
ghost use Rattle.fs_device.specs.OneProof.{holds-prop};

use crate::device::Device;
use fuse_fs::FileSystem;
use vm_memory::{GuestMemoryMmap, Iommu, IommuMemory};
use vm_memory_core::{HostMemory, PageBitmap};

/// A guest's memory, its IOMMU and its device. A `Command` is one event of the machine.
#[derive(Drop)]
pub struct Machine<F, I: Iommu + Drop> {
    pub host: HostMemory<PageBitmap>,
    pub mem: IommuMemory<GuestMemoryMmap, I>,
    pub device: Device<F>,
    pub ghost held: { HoldsBehind host mem.backend (I.number mem.iommu) mem.io_bitmap } by { holds-prop host
        mem.backend (I.number mem.iommu) mem.io_bitmap },
}

impl<F: FileSystem, I: Iommu + Drop> Machine<F, I> {
    /// A machine of a host, a layout over its blocks with an IOMMU, and a device. The host must have
    /// the IOMMU's table and its set of I/O pages: `HostMemory::holds` tests it.
    pub fn new(
        host: HostMemory<PageBitmap>,
        mem: IommuMemory<GuestMemoryMmap, I>,
        device: Device<F>,
    ) -> Machine<F, I>
        requires { HoldsBehind host mem.backend (I.number mem.iommu) mem.io_bitmap }
        ensures host { result.host ≡ host }
        ensures mem { result.mem ≡ mem }
        ensures device { result.device ≡ device }
    {
        Machine { host, mem, device }
    }
}
