//! The commands that change a machine's blocks and layout.

ghost use Rattle.std.specs.Prelude.{◌≡◌, []};
ghost use Rattle.std.specs.List.{list_any};
ghost use Rattle.vm_memory.specs.Layout.{overlap};
ghost use Rattle.plain_machine.specs.Run.{Performs, NewBlock, InsertRegion, RemoveRegion, SetLayout};
ghost use Rattle.fs_device.specs.CommandView.{answer_of};
ghost use Rattle.fs_device.specs.MachineView.{machine_of};

use crate::command::Answer;
use crate::machine::Machine;
use fuse_fs::FileSystem;
use plain_machine::Refusal;
use std::alloc::Global;
use std::sync::Arc;
use vm_memory::{
    GuestMemoryBackend, GuestMemoryMmap, GuestMemoryRegion, GuestRegionCollectionError,
    GuestRegionMmap, Iommu, MmapRegion,
};
use vm_memory_core::GuestAddress;

// Whether two regions have an address in common.
fn overlap(one: &GuestRegionMmap, other: &GuestRegionMmap) -> bool
    ensures { result ≡ overlap one.now other.now }
{
    one.start_addr().0 <= other.last_addr().0 && other.start_addr().0 <= one.last_addr().0
}

// Whether a region has an address in common with one of a layout.
fn overlaps_any(region: &GuestRegionMmap, layout: &GuestMemoryMmap) -> bool
    ensures { result ≡ list_any (overlap region.now) layout.now }
{
    for other in layout.iter() {
        if overlap(region, other) {
            return true;
        }
    }
    false
}

impl<F: FileSystem, I: Iommu + Drop> Machine<F, I> {
    pub(crate) fn new_block(&mut self, len: usize) -> Answer
        ensures { Performs F.may (machine_of self.old) (NewBlock len) [] (answer_of result)
            (machine_of self.new) }
    {
        if len == 0 {
            return Answer::Refused(Refusal::EmptyBlock);
        }
        match self.host.new_block(len) {
            Ok(number) => Answer::Block(number),
            Err(_) => Answer::Refused(Refusal::OutOfMemory),
        }
    }

    pub(crate) fn insert_region(&mut self, alloc: Global, base: u64, block: usize) -> Answer
        ensures { Performs F.may (machine_of self.old) (InsertRegion base block) [] (answer_of result)
            (machine_of self.new) }
    {
        let Some(region) = MmapRegion::of_block(&self.host, block) else {
            return Answer::Refused(Refusal::UnknownBlock);
        };
        let Some(region) = GuestRegionMmap::new(region, GuestAddress(base)) else {
            return Answer::Refused(Refusal::BadRegion);
        };
        if overlaps_any(&region, self.mem.get_backend()) {
            return Answer::Refused(Refusal::Overlap);
        }
        let Ok(region) = Arc::new(alloc, region) else {
            return Answer::Refused(Refusal::OutOfMemory);
        };
        // It overlaps none, so only an allocation can fail.
        match self.mem.get_backend().insert_region(region) {
            Ok(layout) => {
                self.mem.set_backend(layout);
                Answer::Done
            }
            Err(_) => Answer::Refused(Refusal::OutOfMemory),
        }
    }

    pub(crate) fn remove_region(&mut self, base: u64, size: u64) -> Answer
        ensures { Performs F.may (machine_of self.old) (RemoveRegion base size) [] (answer_of result)
            (machine_of self.new) }
    {
        match self
            .mem
            .get_backend()
            .remove_region(GuestAddress(base), size)
        {
            Ok((layout, _)) => {
                self.mem.set_backend(layout);
                Answer::Done
            }
            Err(error) => match error {
                GuestRegionCollectionError::NoMemoryRegion => Answer::Refused(Refusal::NoRegion),
                _ => Answer::Refused(Refusal::OutOfMemory),
            },
        }
    }

    /// Replaces all regions by others: `Done`, or refused with `UnknownBlock` if the host has no such
    /// block of that length for one of them. Then nothing changed.
    pub fn set_layout(&mut self, layout: GuestMemoryMmap) -> Answer
        ensures { Performs F.may (machine_of self.old) (SetLayout layout) [] (answer_of result)
            (machine_of self.new) }
    {
        if !self.host.holds(&layout) {
            return Answer::Refused(Refusal::UnknownBlock);
        }
        self.mem.set_backend(layout);
        Answer::Done
    }
}
