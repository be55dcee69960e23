//! The commands that change the table of a machine's IOMMU.

ghost use Rattle.std.specs.Prelude.{◌≡◌, ◌<◌, [], List, length};
ghost use Rattle.vm_iotlb.specs.declared.range.IotlbRange.{IotlbRange};
ghost use Rattle.vm_iotlb.specs.Changes.{InvalidatesMapping, SetsMapping};
ghost use Rattle.vm_iotlb.specs.Ranges.{AreRanges};
ghost use Rattle.vm_memory_core.specs.Host.{shape};
ghost use Rattle.vm_memory_core.specs.Lending.{with_table_at};
ghost use Rattle.vm_memory.specs.Translated.{ranges_in};
ghost use Rattle.plain_machine.specs.Run.{Performs, Map, SetIommu, Unmap, UnmapAll};
ghost use Rattle.fs_device.specs.CommandView.{answer_of};
ghost use Rattle.fs_device.specs.MachineView.{machine_of};

use crate::command::Answer;
use crate::machine::Machine;
use fuse_fs::FileSystem;
use plain_machine::Refusal;
use vm_memory::Iommu;
use vm_memory_core::{GuestAddress, HostMemory, IommuError, Iotlb, PageBitmap, Permissions};

// A table's ranges ascend and are as long as possible, as the contract of a look-up of no address says.
fn keeps_ranges(table: &Iotlb)
    ensures { AreRanges table.now }
{
    // For the proof: nothing is looked up.
    let _ = table.lookup(GuestAddress(0), 0, Permissions::No);
}

// Maps addresses in a table of a host.
fn map_in(
    host: &mut HostMemory<PageBitmap>,
    number: usize,
    iova: u64,
    target: u64,
    len: usize,
    perm: Permissions,
) -> Result<(), IommuError>
    requires { number < length host.old.tables }
    ensures changed { (ranges : List IotlbRange)
        × AreRanges ranges
        × SetsMapping iova target len perm (ranges_in host.old number) ranges result
        × (host.new ≡ with_table_at host.old number ranges) }
    ensures shape { shape host.new ≡ shape host.old }
{
    let Some(table) = host.table_mut(number) else {
        unreachable!();
    };
    let done = table.set_mapping(GuestAddress(iova), GuestAddress(target), len, perm);
    keeps_ranges(table);
    done
}

// Removes the mappings of addresses from a table of a host.
fn unmap_in(
    host: &mut HostMemory<PageBitmap>,
    number: usize,
    iova: u64,
    len: usize,
) -> Result<(), IommuError>
    requires { number < length host.old.tables }
    ensures changed { (ranges : List IotlbRange)
        × AreRanges ranges
        × InvalidatesMapping iova len (ranges_in host.old number) ranges result
        × (host.new ≡ with_table_at host.old number ranges) }
    ensures shape { shape host.new ≡ shape host.old }
{
    let Some(table) = host.table_mut(number) else {
        unreachable!();
    };
    let done = table.invalidate_mapping(GuestAddress(iova), len);
    keeps_ranges(table);
    done
}

// Removes all mappings from a table of a host.
fn unmap_all_in(host: &mut HostMemory<PageBitmap>, number: usize)
    requires { number < length host.old.tables }
    ensures changed { host.new ≡ with_table_at host.old number [] }
    ensures shape { shape host.new ≡ shape host.old }
{
    if let Some(table) = host.table_mut(number) {
        table.invalidate_all();
    }
}

impl<F: FileSystem, I: Iommu + Drop> Machine<F, I> {
    pub(crate) fn map(&mut self, iova: u64, target: u64, len: usize, perm: Permissions) -> Answer
        ensures { Performs F.may (machine_of self.old) (Map iova target len perm) [] (answer_of result)
            (machine_of self.new) }
    {
        let number = self.mem.iommu().table();
        match map_in(&mut self.host, number, iova, target, len, perm) {
            Ok(()) => Answer::Done,
            Err(IommuError::IommuMisconfigured) => Answer::Refused(Refusal::BadMapping),
            Err(IommuError::OutOfMemory) => Answer::Refused(Refusal::OutOfMemory),
            Err(IommuError::CannotResolve(_)) | Err(IommuError::Fragmented) => unreachable!(),
        }
    }

    pub(crate) fn unmap(&mut self, iova: u64, len: usize) -> Answer
        ensures { Performs F.may (machine_of self.old) (Unmap iova len) [] (answer_of result)
            (machine_of self.new) }
    {
        let number = self.mem.iommu().table();
        match unmap_in(&mut self.host, number, iova, len) {
            Ok(()) => Answer::Done,
            Err(IommuError::IommuMisconfigured) => Answer::Refused(Refusal::BadMapping),
            Err(IommuError::OutOfMemory) => Answer::Refused(Refusal::OutOfMemory),
            Err(IommuError::CannotResolve(_)) | Err(IommuError::Fragmented) => unreachable!(),
        }
    }

    pub(crate) fn unmap_all(&mut self) -> Answer
        ensures { Performs F.may (machine_of self.old) UnmapAll [] (answer_of result) (machine_of self.new) }
    {
        let number = self.mem.iommu().table();
        unmap_all_in(&mut self.host, number);
        Answer::Done
    }

    pub(crate) fn set_iommu(&mut self, on: bool) -> Answer
        ensures { Performs F.may (machine_of self.old) (SetIommu on) [] (answer_of result)
            (machine_of self.new) }
    {
        self.mem.set_iommu_enabled(on);
        Answer::Done
    }
}
