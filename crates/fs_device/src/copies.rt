//! The copies that a machine makes of its host.

ghost use Rattle.std.specs.Prelude.{◌≡◌, []};
ghost use Rattle.plain_machine.specs.Run.{Harvest, Image, Performs};
ghost use Rattle.fs_device.specs.CommandView.{answer_of};
ghost use Rattle.fs_device.specs.MachineView.{machine_of};

use crate::command::Answer;
use crate::machine::Machine;
use fuse_fs::FileSystem;
use plain_machine::Refusal;
use std::alloc::Global;
use vm_memory::Iommu;

impl<F: FileSystem, I: Iommu + Drop> Machine<F, I> {
    pub(crate) fn image(&mut self, alloc: Global) -> Answer
        ensures performs { Performs F.may (machine_of self.old) Image [] (answer_of result)
            (machine_of self.new) }
        ensures mem { self.new.mem ≡ self.old.mem }
    {
        match crate::whole::image(alloc, &mut self.host) {
            Ok(copy) => Answer::Copied(copy),
            Err(_) => Answer::Refused(Refusal::OutOfMemory),
        }
    }

    pub(crate) fn harvest(&mut self, alloc: Global) -> Answer
        ensures performs { Performs F.may (machine_of self.old) Harvest [] (answer_of result)
            (machine_of self.new) }
        ensures mem { self.new.mem ≡ self.old.mem }
    {
        match crate::harvested::harvest(alloc, &mut self.host) {
            Ok(pages) => Answer::Pages(pages),
            Err(_) => Answer::Refused(Refusal::OutOfMemory),
        }
    }
}
